// What no clause says: values from outside, printed lines, and that calls succeed.
mod many;
mod printed;
mod results;
mod zeros;
