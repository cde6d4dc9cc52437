mod cases;
mod lists;
mod making;
mod reading;
mod takes;
mod throwing;
mod world;
