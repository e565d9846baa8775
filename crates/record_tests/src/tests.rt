mod checkpoints;
mod machines;
mod records;
mod rows;
