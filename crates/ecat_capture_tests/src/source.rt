//! Sources in pieces, captures by the layouts of classic pcap, and reads that fail.

mod captures;
mod sources;
