// The tables, one for each format.
mod pbm;
mod pgm;
