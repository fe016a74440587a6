// What no clause says: that calls succeed, on bytes from outside. The structs and their users are
// proved with no word.
mod appends;
mod calls;
mod closed;
mod encoded;
mod equal;
mod fixed;
mod many;
mod orders;
mod parts;
mod places;
mod pointers;
mod printed;
mod rest;
mod results;
mod stored;
mod walk;
