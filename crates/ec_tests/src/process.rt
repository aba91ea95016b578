mod acting;
mod door;
mod line;
