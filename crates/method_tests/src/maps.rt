mod joining;
mod keys;
mod reading;
mod takes;
mod world;
mod writing;
