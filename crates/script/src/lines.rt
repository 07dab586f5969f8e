// What is printed: text put into a slice, behind what stands there.
ghost use Rattle.std.specs.Prelude.{◌≡◌, ◌+◌, ◌<◌, length, Some, None, IfSome, if◌then◌else◌};
ghost use Rattle.script.specs.Lines.{decimal, column_of, gives_descriptor, gives_length, line_length, line, closing};
ghost use Rattle.script.specs.Pages.{Room, Printed};

use answers::Answer;

// A slice that is lent, and where the text in it ends.
// stays: a length beside the slice, since std's writers do not promise which bytes stand where.
#[derive(Drop)]
pub(crate) struct Page<'a> {
    pub out: &'a mut [u8],
    pub at: usize,
}

impl Page<'_> {
    // All of a text.
    pub(crate) fn put(&mut self, text: &[u8])
        requires { Room self.old (length text.now) }
        ensures { Printed self.old text.now self.new }
    {
        let out = &mut *self.out;
        let end = self.at + text.len();
        out[self.at..end].copy_from_slice(text);
        self.at = end;
    }

    // A number, in decimal.
    // stays: digits by hand: `write!` promises its text only where it answers Ok, and the crates stand on std alone.
    #[tactic(auto, using(crate::proofs::Text::decimal_grows, crate::proofs::Text::decimal_digit))]
    fn put_number(&mut self, n: u32)
        requires small { n < 100000 }
        requires room { Room self.old (length (decimal n)) }
        ensures { Printed self.old (decimal n) self.new }
    {
        if n >= 10 {
            self.put_number(n / 10);
        }
        self.put(&[b'0' + (n % 10) as u8]);
    }

    // stays: n < 100000 is a clause, here and above, since a step's number and an answer's lengths differ in type.
    // A space, then a number or "-".
    #[tactic(auto, using(crate::proofs::Text::decimal_length))]
    fn put_column(&mut self, given: Option<u32>)
        requires small { IfSome given (λ n. n < 100000) }
        requires room { Room self.old 6 }
        ensures { Printed self.old (column_of given) self.new }
    {
        self.put(b" ");
        match given {
            Some(n) => self.put_number(n),
            None => self.put(b"-"),
        }
    }

    // The line of step n.
    #[tactic(auto, using(crate::proofs::Text::decimal_length, crate::proofs::Text::column_of_length))]
    pub(crate) fn put_line(&mut self, n: u32, kind: u8, a: Answer)
        requires small { n < 100000 }
        requires room { Room self.old 24 }
        ensures { Printed self.old (line n kind a) self.new }
    {
        self.put_number(n);
        self.put_column(Some(a.number as u32));
        self.put_column(descriptor_given(kind, a));
        self.put_column(length_given(kind, a));
        self.put(b"\n");
    }

    // Step n and the words that end a script there.
    #[tactic(auto, using(crate::proofs::Text::decimal_length, crate::proofs::Text::put_then), unfolding(crate::specs::Lines::closing))]
    pub(crate) fn put_closing(&mut self, n: u32, words: &[u8])
        requires small { n < 100000 }
        requires room { Room self.old (5 + length words.now) }
        ensures { Printed self.old (closing n words.now) self.new }
    {
        self.put_number(n);
        self.put(words);
    }
}

// Who gives a descriptor, and who a length.
// stays: numbers: the kind is document 01's byte and the other is C's; a pattern is a literal and no cast.
fn descriptor_given(kind: u8, a: Answer) -> Option<u32>
    ensures { result ≡ (if gives_descriptor kind a then Some a.descriptor.0 else None) }
{
    match (kind, a.number) {
        (1, 0) | (_, 20 | 21) => Some(a.descriptor.0 as u32),
        _ => None,
    }
}

fn length_given(kind: u8, a: Answer) -> Option<u32>
    ensures { result ≡ (if gives_length kind a then Some (line_length kind a) else None) }
{
    match (kind, a.number) {
        (6, 0) => Some(a.len as u32),
        (11, 30) => Some(a.item.len as u32),
        _ => None,
    }
}
