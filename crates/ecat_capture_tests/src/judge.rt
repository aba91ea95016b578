//! Tests of the judging of a capture (`ecat_judge`): the use on the crate's page, and outputs that fail.

mod ends;
