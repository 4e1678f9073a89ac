// How the packets of a capture are run.
ghost use Rattle.std.specs.Prelude.{◌≡◌, ◌↔◌, IsTrue};
ghost use Rattle.nova_replay.specs.Fates.{args_with, length_by, is_among, is_kept};
ghost use Rattle.nova_replay.specs.Replaying.{IsOver};

use nv_base::Words;
use uc_isa::Code;
use uc_object::Object;

/// What is the same for all packets. The code is that of the object.
#[derive(Drop)]
pub struct Plan<'a> {
    pub object: &'a Object,
    pub code: &'a Code,
    pub args: Words,
    /// The argument that is the packet's length, if one is.
    pub length: Option<usize>,
    pub at: u32,
    pub steps: u32,
    /// Whether a packet that raised is written as it came.
    pub keeps: bool,
    /// The exceptions whose packets aren't.
    pub drops: &'a [u16],
    pub limit: Option<u32>,
}

impl<'a> Plan<'a> {
    /// The arguments for a packet of this length.
    pub fn args_for(&self, len: usize) -> Words
        ensures { result ≡ args_with self.now.length self.now.args len }
    {
        let Some(place) = self.length else {
            return self.args;
        };
        let given = self.args.list();
        let mut all = [0u32; 8];
        let args = &mut all[..given.len()];
        args.copy_from_slice(given);
        if place < args.len() {
            args[place] = len.min(u32::MAX as usize) as u32;
        }
        Words::of(args)
    }

    /// The length of what comes out, by the words of the result: that at the place of the argument, where there is one.
    pub fn length_out(&self, len: usize, given: &Words) -> usize
        ensures { result ≡ length_by self.now.length given.now len }
    {
        let Some(place) = self.length else {
            return len;
        };
        match given.list().get(place) {
            Some(word) => *word as usize,
            None => len,
        }
    }

    /// Whether no packet is to follow these.
    pub fn is_over(&self, packets: u64) -> bool
        ensures { IsTrue result ↔ IsOver self.now packets }
    {
        match self.limit {
            Some(limit) => packets >= u64::from(limit),
            None => false,
        }
    }

    /// Whether a packet that raised the exception of this number is written.
    pub fn is_kept(&self, number: u16) -> bool
        ensures { result ≡ is_kept self.now number }
    {
        self.keeps && !is_among(number, self.drops)
    }
}

fn is_among(number: u16, numbers: &[u16]) -> bool
    ensures { result ≡ is_among number numbers.now }
{
    match numbers {
        [] => false,
        [first, rest @ ..] => number == *first || is_among(number, rest),
    }
}
