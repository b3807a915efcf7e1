//! The kernel with the values that it needs in a flight.

ghost use Rattle.std.specs.Prelude.{◌≡◌, ◌↔◌, ◌+◌, ◌<◌, ◌≤◌, length};
ghost use Rattle.frame_model.specs.Storage.{kernel_image};
ghost use Rattle.scram_kernel.specs.Kernels.{kernel_after, rows_below};
ghost use Rattle.word_table.specs.Tables.{IsKernelSeatOf, kernel_frame, kernel_image_of, kernel_steps, kernel_tries, mission_in};
ghost use Rattle.word_deck.specs.Kernels.{AreNoted, IsKernelDone, IsKernelMoved, KernelCrewKeeps, frames_noted};
ghost use Rattle.word_deck.specs.declared.turns.Turn.TheVariants.{Finished};

use crate::turns::Turn;
use bank_words::{KernelImage, kernel_encode};
use coverage_check::Mission;
use scram_kernel::Kernel;
use scram_types::{Image, ProcId, Row};
use word_table::{KSeat, WordTable};

/// The marks and images that processors have committed by the end of the kernel's frame. The entries of the
/// processors that the kernel has not noted in this frame are arbitrary.
#[derive(Clone, Copy)]
pub(crate) struct Noted {
    pub(crate) marks: [u64; 8],
    pub(crate) images: [Image; 8],
}

/// The kernel of a flight at its seat, with the marks and images that the kernel has noted in its frame. The kernel
/// has a row for each frame in which it has noted every processor.
#[derive(Drop)]
pub struct KernelCrew<'a> {
    pub mission: &'a Mission,
    pub kseat: KSeat,
    pub kernel: Kernel<'a>,
    pub(crate) noted: Noted,
    ghost keeps: { KernelCrewKeeps mission.now kseat kernel noted },
}

impl<'a> KernelCrew<'a> {
    /// Returns the kernel at its seat, before the first frame.
    pub fn kernel(mission: &'a Mission, kseat: KSeat, kernel: Kernel<'a>) -> KernelCrew<'a>
        requires frame { kernel_frame kseat ≡ 0 }
        requires steps { kernel_steps kseat ≡ 0 }
        requires new { kernel ≡ kernel_after mission.now.spec mission.now.script 0 }
        ensures mission { result.mission ≡ mission.entry }
        ensures seat { result.kseat ≡ kseat }
    {
        mission.holds();
        let noted = Noted {
            marks: [0; 8],
            images: [[0; 64]; 8],
        };
        KernelCrew {
            mission,
            kseat,
            kernel,
            noted,
        }
    }

    /// Returns the rows of the frames in which the kernel has noted every processor. They are the first rows of the
    /// one-thread trace.
    pub fn rows(&self) -> &[Row]
        ensures { let m = self.now.mission.now in result.now ≡ rows_below m.spec m.script (frames_noted (length m.spec.procs) self.now.kseat) }
    {
        self.kernel.rows()
    }

    /// Tries to make the next steps of the kernel. Notes the processors of the kernel's frame in order, up to the
    /// first one that is neither done with the frame nor halted. Once all are noted, ends the frame, and publishes and
    /// releases the next frame if there is one. Returns `Finished` if and only if the kernel has then made its last
    /// note, or no frame is flown. Otherwise returns `NotYet` if this call noted no processor, and `Worked` if it
    /// noted some. This method does not block.
    #[tactic(auto, using(crate::proofs::Noting::below, crate::proofs::Noting::all))]
    pub fn turn(&mut self, words: &WordTable) -> Turn
        requires mission { mission_in words.now ≡ self.old.mission.now }
        requires seat { IsKernelSeatOf words.now self.old.kseat }
        ensures mission { self.new.mission ≡ self.old.mission }
        ensures seat { IsKernelSeatOf words.now self.new.kseat }
        ensures place { IsKernelMoved result (length (mission_in words.now).spec.procs) (mission_in words.now).script.frames self.old.kseat self.new.kseat }
        ensures finished { (result ≡ Finished) ↔ IsKernelDone (mission_in words.now) self.new.kseat }
    {
        let procs = self.mission.spec().procs.items().len() as u32;
        let frames = self.mission.script().frames;
        let before = self.kseat.steps();
        if frames == 0 || before >= procs {
            return Turn::Finished;
        }
        note_all(words, procs, &mut self.kseat, &mut self.noted);
        if self.kseat.steps() == before {
            return Turn::NotYet;
        }
        if self.kseat.steps() < procs {
            return Turn::Worked;
        }
        let image = end_frame(self.mission, &self.noted, &mut self.kernel);
        if self.kseat.frame() + 1 == frames {
            return Turn::Finished;
        }
        publish_frame(words, procs, &mut self.kseat, &image);
        Turn::Worked
    }

    /// Returns the kernel's seat and the kernel's log.
    #[tactic(auto, using(crate::proofs::Noting::done_log))]
    pub(crate) fn into_parts(self) -> (KSeat, Kernel<'a>)
        ensures seat { result.0 ≡ self.entry.kseat }
        ensures kernel { let m = self.entry.mission.now in IsKernelDone m self.entry.kseat
            → result.1 ≡ kernel_after m.spec m.script m.script.frames }
    {
        let KernelCrew {
            mission: _,
            kseat,
            kernel,
            noted: _,
        } = self;
        (kseat, kernel)
    }
}

// Notes processors in order, until all are noted or the next processor may not be noted.
fn note_all(words: &WordTable, procs: u32, kseat: &mut KSeat, noted: &mut Noted)
    requires seat { IsKernelSeatOf words.now kseat.old }
    requires procs { procs ≡ length (mission_in words.now).spec.procs }
    requires few { procs ≤ 8 }
    requires frame { kernel_frame kseat.old < (mission_in words.now).script.frames }
    requires steps { kernel_steps kseat.old ≤ procs }
    requires noted { AreNoted (mission_in words.now) (kernel_frame kseat.old) (kernel_steps kseat.old) noted.old }
    ensures seat { IsKernelSeatOf words.now kseat.new }
    ensures frame { kernel_frame kseat.new ≡ kernel_frame kseat.old }
    ensures more { kernel_steps kseat.old ≤ kernel_steps kseat.new }
    ensures most { kernel_steps kseat.new ≤ procs }
    ensures tries { kernel_steps kseat.new ≡ kernel_steps kseat.old → kernel_steps kseat.old < procs → kernel_tries kseat.new ≡ kernel_tries kseat.old + 1 }
    ensures noted { AreNoted (mission_in words.now) (kernel_frame kseat.new) (kernel_steps kseat.new) noted.new }
{
    for p in kseat.steps()..procs {
        let image = &mut noted.images[p as usize];
        match words.gone(kseat, ProcId(p as u8), image) {
            Some(marked) => noted.marks[p as usize] = marked.mark,
            None => return,
        }
    }
}

// Ends the kernel's frame, in which all processors have been noted, and returns the kernel image of the next frame.
fn end_frame(mission: &Mission, noted: &Noted, kernel: &mut Kernel) -> KernelImage
    requires frame { kernel.old.past < mission.now.script.frames }
    requires kernel { kernel.old ≡ kernel_after mission.now.spec mission.now.script kernel.old.past }
    requires noted { AreNoted mission.now kernel.old.past (length mission.now.spec.procs) noted.now }
    ensures kernel { kernel.new ≡ kernel_after mission.now.spec mission.now.script (kernel.old.past + 1) }
    ensures image { result ≡ kernel_image mission.now.spec mission.now.script (kernel.old.past + 1) }
{
    mission.holds();
    kernel.tick(&noted.marks, &noted.images)
}

// Stores the kernel image of the next frame, word by word, and releases that frame.
fn publish_frame(words: &WordTable, procs: u32, kseat: &mut KSeat, image: &KernelImage)
    requires seat { IsKernelSeatOf words.now kseat.old }
    requires procs { procs ≡ length (mission_in words.now).spec.procs }
    requires steps { kernel_steps kseat.old ≡ procs }
    requires frame { kernel_frame kseat.old + 1 < (mission_in words.now).script.frames }
    requires image { image.now ≡ kernel_image_of words.now (kernel_frame kseat.old + 1) }
    ensures seat { IsKernelSeatOf words.now kseat.new }
    ensures frame { kernel_frame kseat.new ≡ kernel_frame kseat.old + 1 }
    ensures steps { kernel_steps kseat.new ≡ 0 }
    ensures tries { kernel_tries kseat.new ≡ kernel_tries kseat.old }
{
    let said = kernel_encode(image);
    for i in 0..20 {
        words.publish(kseat, i, said[i as usize]);
    }
    words.release(kseat);
}
