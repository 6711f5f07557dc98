// The page that `site help` prints: the form, the verbs, the statuses, and what the program leaves to others.

pub(crate) const PAGE: [u8; 1315] =
    *b"site VERB [NUMBERS] <FILE: what an image or a script says of its site

FILE is an image or a script. One that begins with the word radios is a script, any other is an image.

  check       0, and how many radios the site has; or what is wrong, by number and in words
  numbers     the core number of each radio, by radio
  sheet       all radios with their numbers, 8 to a line
  script      the script that rebuilds the site
  image       the image of the site, in bytes
  backbone    the radios with the greatest number of their own connected part
  core V K    the connected core of radio V at level K
  lift V      one link that would raise the number of radio V: the first, by lower radio and then higher
  tree        the shell tree: a line for each node (name, level, parent), then the node of each radio
  staircase   the staircase tree: a line for each kept link, in the order in which they are taken
  help        this page

Nothing is printed before the input is read to its end and checked. What goes wrong is one line on the error output, which says what
and where, and the status is 1; else it is 0. bin/site hands the status on: a proved program has none of its own. A long
script shows its line on the error output where that is a terminal. A page to look at, which needs Python, is page/make.py's.
";
