// What the program `site` prints, verb by verb: put into a lent buffer from a site's tables, each over one call of the engine. A text
// that does not fit is cut, and counted whole.

pub use super::answers::answer;
pub use super::names::{Verb, takes, verb_of};
