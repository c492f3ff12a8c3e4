// The words of a line.
ghost use Rattle.std.specs.Prelude.{◌≡◌, ◌+◌, ◌≤◌, length, drop};
ghost use Rattle.grammar.specs.Line.{blank, run, line_of};
ghost use Rattle.grammar.specs.Code.{part, part_within, split_as, within};

// The bytes of a line from one place up to another.
#[derive(Clone, Copy)]
pub struct Part {
    pub from: usize,
    pub to: usize,
}

impl Part {
    // The bytes that stand there.
    pub fn of(self, line: &[u8]) -> &[u8]
        requires { part_within self (length line.now) }
        ensures { result.now ≡ part line.now self }
    {
        &line[self.from..self.to]
    }
}

// The three words of an instruction's line, by their places.
#[derive(Clone, Copy)]
pub struct Words {
    pub mnemonic: Part,
    pub first: Part,
    pub second: Part,
}

// How many blanks a text begins with.
fn count_blanks(text: &[u8]) -> usize
    ensures { result ≡ length (run blank text.now) }
{
    text.iter()
        .position(|&b| !letters::is_blank(b))
        .unwrap_or(text.len())
}

// Past the blanks that stand at `at`.
fn skip_blanks(line: &[u8], at: usize) -> usize
    requires { at ≤ length line.now }
    ensures { (result ≡ at + length (run blank (drop at line.now))) × (result ≤ length line.now) }
{
    at + count_blanks(&line[at..])
}

// The words of a line. Only the last may end it; any byte that the grammar does not ask for ends the match. Nested loops that are left by label: the
// form that docs/DECISIONS.md ("Forms that the rules name") lists. The outer goes over words, `word` of them so far, the inner over a word's bytes.
pub fn match_line(line: &[u8]) -> Option<Words>
    ensures result_value { split_as line.now result ≡ line_of line.now }
    ensures within { within result (length line.now) }
{
    let mut mnemonic = Part { from: 0, to: 0 };
    let mut first = mnemonic;
    let mut word: usize = 0;
    let mut from = skip_blanks(line, 0);
    'line: loop {
        let mut to = from;
        'word: loop {
            match line.get(to) {
                Some(&b) if letters::is_wordy(b) => to += 1,
                None if word < 2 => break 'line None,
                _ => break,
            }
        }
        let next = skip_blanks(line, to);
        match word {
            _ if to == from => break None,
            0 if to < next => {
                mnemonic = Part { from, to };
                from = next;
            }
            1 if line[next..].starts_with(b",") => {
                first = Part { from, to };
                from = skip_blanks(line, next + 1);
            }
            2 if next == line.len() => {
                let second = Part { from, to };
                break Some(Words {
                    mnemonic,
                    first,
                    second,
                });
            }
            _ => break None,
        }
        word += 1;
    }
}
