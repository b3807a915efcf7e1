//! The kernel of a flight, with its log.

use crate::drawing::{Stored, draw, keepers_drawn};
use crate::images::{image_given, image_next};
use bank_words::KernelImage;
use fault_script::Walk;
use frame_model::{Reading, Sys, close, read_row, tasks_of};
use scram_types::{Area, Flown, Image, List, NoMemory, Report, Row, Script, Spec};
use std::alloc::Global;

/// The kernel of the flight of a specification and a script. The kernel calls no application. It computes the acts of
/// a frame from the marks and the images of the processors after the frame. It reads the environment of the next
/// frame from the script. It holds the kernel image of the running frame, which is the first that has not ended, and
/// the areas before that frame. It also holds the rows and the reconfigurations of the frames that have ended.
pub struct Kernel<'a> {
    spec: &'a Spec,
    script: &'a Script,
    walk: Walk,
    image: KernelImage,
    areas: [Area; 8],
    reading: Reading,
    rows: Vec<Row>,
    reports: Vec<Report>,
}

// A derived drop is laid out in the proof of each function that drops the value, and this one is a call.
impl Drop for Kernel<'_> {
    fn drop(self) {
        let Kernel {
            spec: _,
            script: _,
            walk: _,
            image: _,
            areas: _,
            reading: _,
            rows: _,
            reports: _,
        } = self;
    }
}

impl<'a> std::marker::Model for Kernel<'a> {
    ghost use Rattle.std.specs.Prelude.{vec_capacity, vec_len};
    ghost use Rattle.scram_kernel.specs.Kernels.{KernelKeeps, KernelParts, kernel_after};

    ghost Value = { KernelParts };

    ghost view = { λ k. kernel_after k.spec.now k.script.now k.image.frame };

    ghost invariant = { λ k. KernelKeeps k.spec.now k.script.now k.walk k.image k.areas k.reading
        k.rows.items k.reports.items (vec_capacity k.rows) (vec_capacity k.reports) (vec_len k.rows) (vec_len k.reports) };
}

impl<'a> Kernel<'a> {
    ghost use Rattle.std.specs.Prelude.{◌≡◌, ◌<◌, ◌+◌, IfOk, take};
    ghost use Rattle.fault_script.specs.Fits.{Fits};
    ghost use Rattle.frame_model.specs.Flights.{reports_of, rows_of};
    ghost use Rattle.frame_model.specs.Storage.{kernel_image};
    ghost use Rattle.scram_kernel.specs.Kernels.{kernel_after, rows_below};
    ghost use Rattle.scram_kernel.specs.Marks.{AreImages, AreMarks};

    /// Returns the kernel before the first frame, with capacity for all rows and reports of the script. Returns an
    /// error only if memory runs out.
    pub fn new(alloc: Global, spec: &'a Spec, script: &'a Script) -> Result<Kernel<'a>, NoMemory>
        requires { Fits spec.now script.now }
        ensures { IfOk result (λ kernel. kernel ≡ kernel_after spec.now script.now 0) }
    {
        let rows = Vec::with_capacity(alloc, script.frames as usize)?;
        let reports = Vec::with_capacity(alloc, script.frames as usize + 1)?;
        let sys = Sys::start(spec);
        let areas = sys.areas;
        let walk = Walk::first(spec, script);
        Ok(Kernel {
            spec,
            script,
            walk,
            image: image_given(spec, &sys, walk.env),
            areas,
            reading: Reading::Steady(spec.start),
            rows,
            reports,
        })
    }

    /// Returns the kernel image of frame 0, whatever the number of frames that have ended.
    pub fn first(&self) -> KernelImage
        ensures { result ≡ kernel_image self.now.spec self.now.script 0 }
    {
        image_given(
            self.spec,
            &Sys::start(self.spec),
            Walk::first(self.spec, self.script).env,
        )
    }

    /// Returns the kernel image of the running frame, the first that has not ended.
    pub fn image(&self) -> KernelImage
        ensures { result ≡ kernel_image self.now.spec self.now.script self.now.past }
    {
        self.image
    }

    /// Returns the rows of the frames that have ended. They are the first rows of the one-thread trace.
    pub fn rows(&self) -> &[Row]
        ensures rows { result.now ≡ rows_below self.now.spec self.now.script self.now.past }
        ensures first { result.now ≡ take self.now.past (rows_of self.now.spec self.now.script) }
    {
        &self.rows
    }

    /// Ends the running frame, given the processors' marks and images after it. Appends the frame's row, continues
    /// the reading of reconfigurations, and advances to the next frame. Returns the kernel image of the next frame,
    /// even after the last frame. The script must have a frame that has not ended.
    pub fn tick(&mut self, marks: &[u64; 8], images: &[Image; 8]) -> KernelImage
        requires frames { self.old.past < self.old.script.frames }
        requires marks { AreMarks self.old.spec self.old.script (self.old.past + 1) marks.now }
        requires images { AreImages self.old.spec self.old.script (self.old.past + 1) images.now }
        ensures kernel { self.new ≡ kernel_after self.old.spec self.old.script (self.old.past + 1) }
        ensures image { result ≡ kernel_image self.old.spec self.old.script (self.old.past + 1) }
    {
        let stored = Stored { marks, images };
        let tasks = tasks_of(self.spec, &self.image.mode, self.image.frame);
        let keepers = keepers_drawn(&self.image, &tasks, marks);
        let row = draw(self.spec, &self.image, &tasks, &stored, &mut self.areas);
        let (reading, report) = read_row(self.spec, self.reading, row.frame, &row.acts);
        let walk = self.walk.next(self.spec, self.script);
        let image = image_next(self.spec, &row, keepers, walk.env);
        self.rows.push_reserved(row);
        log(&mut self.reports, report);
        self.reading = reading;
        self.walk = walk;
        self.image = image;
        image
    }

    /// Returns the rows and reports of a flight whose last frame has ended. They are the one-thread trace.
    pub fn finish(self) -> Flown
        requires { self.past ≡ self.script.frames }
        ensures rows { result.rows ≡ rows_of self.entry.spec self.entry.script }
        ensures reports { result.reports ≡ reports_of self.entry.spec self.entry.script }
    {
        let Kernel {
            spec: _,
            script,
            walk: _,
            image: _,
            areas: _,
            reading,
            rows,
            mut reports,
        } = self;
        log(&mut reports, close(reading, script.frames));
        Flown {
            rows: List::of(rows),
            reports: List::of(reports),
        }
    }
}

ghost use Rattle.std.specs.Prelude.{◌≡◌, ◌<◌, ◌≤◌, ◌+◌, ◌++◌, vec_capacity, vec_len};
ghost use Rattle.frame_model.specs.Readings.{as_list};

// Appends `report`, if there is one. `reports` must have capacity for one more report.
fn log(reports: &mut Vec<Report>, report: Option<Report>)
    requires { vec_len reports.old < vec_capacity reports.old }
    ensures items { reports.new.items ≡ reports.old.items ++ as_list report }
    ensures few { vec_len reports.new ≤ vec_len reports.old + 1 }
    ensures room { vec_capacity reports.new ≡ vec_capacity reports.old }
{
    if let Some(report) = report {
        reports.push_reserved(report);
    }
}
