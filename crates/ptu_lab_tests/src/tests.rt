mod answers;
mod faults;
mod loads;
