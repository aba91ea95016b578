//! What is said of a faulty line.

mod faulty;
