//! A unit of the kernel, and the effect of its events on it.

use crate::processors::ProcessorState;

/// A unit: its frame, the number of steps made in the frame, and the frame of its halt if it has halted. It also has
/// its release word, its ready word, its 20 kernel words, and the marks and the words of the images that it has
/// noted.
#[derive(Clone, Copy)]
pub struct UnitState {
    pub frame: u32,
    pub step: u8,
    pub stopped: Option<u32>,
    pub release: u64,
    pub ready: u64,
    pub words: [u64; 20],
    pub marks: [u64; 8],
    pub images: [[u64; 64]; 8],
}

impl UnitState {
    ghost use Rattle.std.specs.Prelude.{◌≡◌, suc, ◌<◌, ◌+◌, ◌^◌};
    ghost use Rattle.fail_stop.specs.Flights.{Flight, word_in};
    ghost use Rattle.kernel_pair.specs.Pairs.{noted, readied, released, stepped, stored, halted_unit};
    ghost use Rattle.kernel_pair.specs.States.{processor_of, unit_of};

    pub(crate) fn note(&mut self, p: u8, processor: &ProcessorState)
        requires step { self.old.step < 255 }
        requires p { p < 8 }
        ensures { unit_of self.new ≡ noted p (processor_of processor.now) (unit_of self.old) }
    {
        self.marks[usize::from(p)] = processor.mark;
        self.images[usize::from(p)] = processor.banks[(processor.mark % 2) as usize];
        self.step += 1;
    }

    pub(crate) fn store(&mut self, i: u8, word: u64)
        requires step { self.old.step < 255 }
        requires i { i < 20 }
        ensures { (m : Flight) → word ≡ word_in (m.kernel_image (suc self.old.frame)) i → unit_of self.new ≡ stored m i (unit_of self.old) }
    {
        self.words[usize::from(i)] = word;
        self.step += 1;
    }

    pub(crate) fn ready(&mut self)
        requires { self.old.step < 255 }
        ensures { unit_of self.new ≡ readied (unit_of self.old) }
    {
        self.ready = 2 * (u64::from(self.frame) + 1);
        self.step += 1;
    }

    pub(crate) fn meet(&mut self)
        requires { self.old.step < 255 }
        ensures { unit_of self.new ≡ stepped (unit_of self.old) }
    {
        self.step += 1;
    }

    pub(crate) fn release(&mut self)
        requires { self.old.frame + 1 < 2 ^ 32 }
        ensures { unit_of self.new ≡ released (unit_of self.old) }
    {
        self.release = u64::from(self.frame) + 2;
        self.frame += 1;
        self.step = 0;
    }

    pub(crate) fn halt(&mut self, frame: u32)
        ensures { unit_of self.new ≡ halted_unit frame (unit_of self.old) }
    {
        self.ready = 2 * u64::from(frame) + 1;
        self.stopped = Some(frame);
    }
}
