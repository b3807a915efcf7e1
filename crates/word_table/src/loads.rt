//! Loads that are not events, and the images and words that they read.

ghost use Rattle.std.specs.Prelude.{◌≡◌, ◌+◌, ◌≤◌, ◌<◌, ℕ, [], Some, length, slice_index};
ghost use Rattle.frame_model.specs.Storage.{image_bank_after};
ghost use Rattle.fail_stop.specs.Listed.{word_index_count};
ghost use Rattle.word_table.specs.Keeping.{IsFlown};
ghost use Rattle.word_table.specs.Plays.{IsFound};
ghost use Rattle.word_table.specs.Reading.{AreCleared, AreRead, IsReader};
ghost use Rattle.word_table.specs.Tables.{flight_in, mission_in};

use crate::actors::{Reads, View};
use crate::tables::WordTable;
use atomic_table::Seat;
use bank_words::{decode, pick};
use fail_stop::words::{kernel_index, mark_index};
use scram_types::{Image, ProcId};

impl WordTable {
    pub(crate) fn load(&self, seat: &mut Seat<(), View>, i: usize) -> u64
        requires table { seat.old.table_id ≡ self.now.table.shared.table_id }
        requires holds { IsFlown (mission_in self.now) }
        requires mission { seat.old.me.0.mission ≡ Some (mission_in self.now) }
        requires empty { seat.old.me.1 ≡ [] }
        requires i { i < word_index_count }
        ensures table { seat.new.table_id ≡ seat.old.table_id }
        ensures same { seat.new.me ≡ seat.old.me }
        ensures found { IsFound (flight_in self.now) seat.old.me.0.actors i result }
    {
        self.table.shared.load::<Reads>(seat, i)
    }

    /// Loads the words of an image from index `from` on. Word `i` is loaded from place `at + i`. The entries of the
    /// image after the mission's last word become zero.
    pub(crate) fn read_image(
        &self,
        seat: &mut Seat<(), View>,
        at: usize,
        from: usize,
        image: &mut Image,
    )
        requires table { seat.old.table_id ≡ self.now.table.shared.table_id }
        requires holds { IsFlown (mission_in self.now) }
        requires mission { seat.old.me.0.mission ≡ Some (mission_in self.now) }
        requires empty { seat.old.me.1 ≡ [] }
        requires at { at + 64 ≤ word_index_count }
        requires from { from ≤ 1 }
        ensures table { seat.new.table_id ≡ seat.old.table_id }
        ensures same { seat.new.me ≡ seat.old.me }
        ensures read { AreRead (flight_in self.now) seat.old.me.0.actors at from (flight_in self.now).width image.new }
    {
        let width = self.width as usize;
        for i in from..width {
            image[i] = decode(self.load(seat, at + i));
        }
        clear_from(image, width);
    }

    /// Returns the number of the bank that holds the image of processor `q` as of the start of `frame`.
    pub(crate) fn bank_picked(&self, seat: &mut Seat<(), View>, frame: u32, q: ProcId) -> usize
        requires table { seat.old.table_id ≡ self.now.table.shared.table_id }
        requires holds { IsFlown (mission_in self.now) }
        requires mission { seat.old.me.0.mission ≡ Some (mission_in self.now) }
        requires empty { seat.old.me.1 ≡ [] }
        requires reader { IsReader (flight_in self.now) seat.old.me.0.actors frame }
        requires q { q.0 < length (mission_in self.now).spec.procs }
        ensures table { seat.new.table_id ≡ seat.old.table_id }
        ensures same { seat.new.me ≡ seat.old.me }
        ensures bank { result ≡ image_bank_after (mission_in self.now).spec (mission_in self.now).script q.0 frame }
        ensures low { result ≤ 1 }
    {
        let mark = self.load(seat, mark_index(q));
        usize::from(pick(mark, frame))
    }

    /// Loads and returns the twenty words of the kernel.
    pub(crate) fn read_kernel(&self, seat: &mut Seat<(), View>) -> [u64; 20]
        requires table { seat.old.table_id ≡ self.now.table.shared.table_id }
        requires holds { IsFlown (mission_in self.now) }
        requires mission { seat.old.me.0.mission ≡ Some (mission_in self.now) }
        requires empty { seat.old.me.1 ≡ [] }
        ensures table { seat.new.table_id ≡ seat.old.table_id }
        ensures same { seat.new.me ≡ seat.old.me }
        ensures read { (i : ℕ) → i < 20 → IsFound (flight_in self.now) seat.old.me.0.actors (8 + i) (slice_index result i) }
        ensures long { length result ≡ 20 }
    {
        let mut words = [0; 20];
        for i in 0..20 {
            words[i] = self.load(seat, kernel_index(i));
        }
        words
    }
}

// Sets the words of an image from index `from` on to zero. The separate loop compiles to one call of `memset`.
fn clear_from(image: &mut Image, from: usize)
    ensures { AreCleared from 64 image.old image.new }
{
    for i in from..64 {
        image[i] = 0;
    }
}
