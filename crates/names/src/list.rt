// The names of a list, one to a line.
ghost use Rattle.std.specs.Prelude.{◌≡◌, position, ◌==◌};
ghost use Rattle.std.specs.Iterator.{YieldsFirstRef, item_count};
ghost use Rattle.std.specs.Str.Lines.{strip_carriage_return};
ghost use Rattle.names.specs.Lists.{names};

// The names of a list that are still to come. `split_inclusive` would leave each line its end, and `split` give an empty
// line more.
#[derive(Clone, Debug, Drop)]
pub(crate) struct Names<'a> {
    rest: &'a [u8],
}

impl<'a> Names<'a> {
    pub(crate) fn of(list: &'a [u8]) -> Names<'a>
        ensures { result.rest.now ≡ list.now }
    {
        Names { rest: list }
    }
}

// Where the first line ends: the place of its 0A, unless the list ends before one.
fn line_end(list: &[u8]) -> Option<usize>
    ensures { result ≡ position (λ c. c == 10) list.now }
{
    list.iter().position(|byte| *byte == b'\n')
}

// The name on a line: a 0D at the end is no part of it.
fn without_return(line: &[u8]) -> &[u8]
    ensures { result.now ≡ strip_carriage_return line.now }
{
    match line {
        [name @ .., b'\r'] => name,
        _ => line,
    }
}

impl<'a> Iterator for Names<'a> {
    type Item = &'a [u8];

    ghost next_gives = { YieldsFirstRef (λ s. names s.rest.now) };

    ghost remaining = { item_count (λ s. names s.rest.now) };

    #[tactic(auto, using(crate::proofs::Lines::ended, crate::proofs::Lines::unended, std::proofs::lemmas::List::take_rest))]
    fn next(&mut self) -> Option<&'a [u8]> {
        let list = self.rest;
        if list.is_empty() {
            return None;
        }
        match line_end(list) {
            Some(end) => {
                self.rest = &list[end + 1..];
                Some(without_return(&list[..end]))
            }
            None => {
                self.rest = &[];
                Some(list)
            }
        }
    }
}
