mod cases;
mod joining;
mod reading;
mod takes;
mod throwing;
mod world;
mod writing;
