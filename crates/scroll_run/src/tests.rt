// Sessions in memory and over streams. (Those of the program are in sessions/.)
mod sessions;
mod streams;
