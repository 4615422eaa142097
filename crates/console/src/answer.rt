// What a call answers: words and numbers on a line, put into a lent buffer from its first place on.
use rule::Refusal;

// A line that is being written, in a lent buffer and no String, so that no answer fails for want of memory. What does not fit is left out; no answer is longer than the buffer that `main` lends.
#[derive(Drop)]
pub struct Line<'a> {
    out: &'a mut [u8],
    at: usize,
}

impl<'a> Line<'a> {
    pub fn new(out: &'a mut [u8]) -> Line<'a> {
        Line { out, at: 0 }
    }

    // Puts a word.
    pub fn word(&mut self, s: &[u8]) {
        self.at = text::put(self.out, self.at, s);
    }

    // Ends the line and writes it to standard output, and answers whether it was taken.
    pub fn show(&mut self) -> bool {
        self.word(b"\n");
        let end = self.at;
        text::show(self.out, end)
    }

    // Puts a number, a space before it.
    pub fn number<N: Into<u64>>(&mut self, n: N) {
        self.at = text::spaced(self.out, self.at, n.into());
    }

    // Puts a count, a space before it.
    pub fn count(&mut self, n: usize) {
        self.number(n as u64);
    }

    // Puts numbers, a space before each.
    pub fn numbers<N: Copy + Into<u64>>(&mut self, xs: &[N]) {
        for x in xs {
            self.number(*x);
        }
    }

    // Puts a refusal.
    pub fn refused(&mut self, r: Refusal) {
        self.word(b"refused");
        self.number(u8::from(r));
    }

    // Puts what an act answers.
    pub fn answer(&mut self, a: Result<(), Refusal>) {
        match a {
            Ok(()) => self.word(b"ok"),
            Err(r) => self.refused(r),
        }
    }

    // Puts how many a call has written.
    pub fn written(&mut self, a: Result<usize, Refusal>) {
        match a {
            Ok(n) => {
                self.word(b"ok");
                self.count(n);
            }
            Err(r) => self.refused(r),
        }
    }
}
