// The part of a text that a buffer takes, while the text is written bit by bit.
ghost use Rattle.std.specs.Prelude.{◌≡◌, length};
ghost use Rattle.writer.specs.Views.{view_of, begun, Puts};

use events::LineEnd;

// A window onto a text: a buffer that takes its bytes from some byte on.
#[derive(Drop)]
pub(crate) struct Window<'a> {
    out: &'a mut [u8],
    // how many bytes of the text are still to be skipped
    skip: usize,
    // the place in the buffer of the next byte
    at: usize,
    // how the sender ends lines
    pub(crate) end: LineEnd,
}

impl<'a> Window<'a> {
    // A window that begins at byte `from` of the text.
    #[tactic(auto, unfolding(crate::specs::Views::view_of, crate::specs::Views::begun))]
    pub(crate) fn new(end: LineEnd, from: usize, out: &'a mut [u8]) -> Window<'a>
        ensures view { view_of result ≡ begun from out.old }
        ensures buffer { result.out.ghost_name ≡ out.entry.ghost_name }
        ensures end { result.end ≡ end }
    {
        Window {
            out,
            skip: from,
            at: 0,
            end,
        }
    }

    // How many places of the buffer are filled.
    #[tactic(auto, unfolding(crate::specs::Views::view_of))]
    pub(crate) fn done(&self) -> usize
        ensures { result ≡ length (view_of self.now).done }
    {
        self.at.min(self.out.len())
    }

    // Writes the next bytes of the text, as far as they lie in the window.
    #[tactic(auto, unfolding(crate::specs::Views::view_of))]
    pub(crate) fn put(&mut self, bytes: &[u8])
        ensures { Puts self.old self.new bytes.now }
    {
        let from = self.skip.min(bytes.len());
        let at = self.done();
        let n = (bytes.len() - from).min(self.out.len() - at);
        self.out[at..at + n].copy_from_slice(&bytes[from..from + n]);
        self.skip -= from;
        self.at = at + n;
    }
}
