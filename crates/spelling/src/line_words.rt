// The words of a line, parted by one space: between two spaces in a row lies an empty word.
ghost use Rattle.std.specs.Prelude.{◌≡◌, ◌==◌};
ghost use Rattle.std.specs.Iterator.{YieldsFirstBy, item_count};
ghost use Rattle.std.specs.List.{position};
ghost use Rattle.spelling.specs.Words.{words_of, words_left};

// Where a line's first space stands.
fn first_space(line: &[u8]) -> Option<usize>
    ensures { result ≡ position (λ b. b == 32) line.now }
{
    line.iter().position(|byte| *byte == b' ')
}

// What is left of the line; nothing behind its last word.
// Kept: std's `split` gives the same words, but its type names the type of its closure, and a `Command` holds the words of `load` by a type with a name.
#[derive(Clone, Copy)]
pub struct Words<'a>(Option<&'a [u8]>);

impl<'a> Words<'a> {
    pub fn of(line: &'a [u8]) -> Words<'a>
        ensures { words_left result ≡ words_of line.now }
    {
        Words(Some(line))
    }
}

impl<'a> Iterator for Words<'a> {
    type Item = &'a [u8];

    ghost next_gives = { YieldsFirstBy (λ word. word.now) words_left };

    ghost remaining = { item_count words_left };

    #[tactic(auto, using(crate::proofs::Split::split_at_first, crate::proofs::Split::split_with_none))]
    fn next(&mut self) -> Option<&'a [u8]> {
        let line = self.0?;
        match first_space(line) {
            Some(end) => {
                self.0 = Some(&line[end + 1..]);
                Some(&line[..end])
            }
            None => {
                self.0 = None;
                Some(line)
            }
        }
    }
}
