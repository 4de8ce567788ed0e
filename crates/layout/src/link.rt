// A link, read from its words and written to them.
ghost use Rattle.std.specs.Prelude.{◌≡◌, ◌+◌, ◌≤◌, length};
ghost use Rattle.lists.specs.Lists.{over};
ghost use Rattle.layout.specs.Words.{link_words, words_of};
ghost use Rattle.layout.specs.Links.{LinkRead, InWords, link_in};

use crate::words::{set_word, word};

// The field's place in its object, its width, its inner start, and the child's id.
#[derive(Clone, Copy)]
pub struct Link {
    pub at: usize,
    pub width: usize,
    pub inner: usize,
    pub child: usize,
}

// The link whose words begin at index i.
pub fn link_at(words: &[u32], i: usize) -> Link
    requires { i + link_words ≤ length words.now }
    ensures { LinkRead words.now i result }
{
    Link {
        at: word(words, i),
        width: word(words, i + 1),
        inner: word(words, i + 2),
        child: word(words, i + 3),
    }
}

// Its words, from index i on.
pub fn set_link(words: &mut [u32], i: usize, l: Link)
    requires { (i + link_words ≤ length words.old) × InWords l }
    ensures { words.new ≡ over i (words_of (link_in l)) words.old }
{
    set_word(words, i, l.at);
    set_word(words, i + 1, l.width);
    set_word(words, i + 2, l.inner);
    set_word(words, i + 3, l.child);
}
