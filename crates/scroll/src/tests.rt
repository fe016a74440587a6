// What no clause says: values from outside, printed lines, and that calls succeed.
mod arrays;
mod c_strings;
mod calls;
mod cursor;
mod drops;
mod floats;
mod leb128;
mod numbers;
mod printed;
pub mod reads;
pub mod results;
mod runs;
mod search;
mod stream_sizes;
mod streams;
mod texts;
