//! Positions and sizes in a picture, in pixels.

ghost use Rattle.std.specs.Prelude.{◌≡◌, ◌<◌, ◌≤◌, ◌^◌, length};
ghost use Rattle.flight_facts.specs.Spans.{IsLane};
ghost use Rattle.picture_form.specs.Sheets.{IsWithinLimits, bottom_of, curves_y, lane_of, lane_y, lanes_of, room_above, rows_of_tick, scale_of, sheet_height, sheet_of, sheet_width, ticks_of, width_of, x_of};

use flight_facts::spans::Lane;
use scram_types::{Row, Spec};

/// The numbers of rows, factors, processors and applications, which determine all positions in a picture.
#[derive(Clone, Copy)]
pub struct Sheet {
    pub rows: u32,
    pub factors: u8,
    pub procs: u8,
    pub apps: u8,
}

/// Returns the sheet of a flight: the number of rows of the flight, and the numbers of factors, processors and
/// applications of the specification.
pub fn sheet_of(spec: &Spec, rows: &[Row]) -> Sheet
    requires { length rows.now < 2 ^ 32 }
    ensures value { result ≡ sheet_of spec.now rows.now }
    ensures sound { IsWithinLimits result }
{
    Sheet {
        rows: rows.len() as u32,
        factors: spec.factors.items().len() as u8,
        procs: spec.procs.items().len() as u8,
        apps: spec.apps.items().len() as u8,
    }
}

fn scale_of(rows: u32) -> u64
    ensures value { result ≡ scale_of rows }
    ensures at_most { result ≤ 8 }
{
    if rows > 8000 {
        1
    } else if rows > 4000 {
        2
    } else if rows > 2000 {
        4
    } else {
        8
    }
}

fn rows_of_tick(rows: u32) -> u32
    ensures value { result ≡ rows_of_tick rows }
    ensures some { 10 ≤ result }
    ensures at_most { result ≤ 100 }
{
    if rows > 8000 {
        100
    } else if rows > 4000 {
        50
    } else if rows > 2000 {
        25
    } else {
        10
    }
}

impl Sheet {
    /// Returns the width of a row.
    pub fn scale(self) -> u64
        ensures value { result ≡ scale_of self.rows }
        ensures at_most { result ≤ 8 }
    {
        scale_of(self.rows)
    }

    /// Returns the number of rows from one tick to the next.
    pub fn tick(self) -> u32
        ensures value { result ≡ rows_of_tick self.rows }
        ensures some { 10 ≤ result }
        ensures at_most { result ≤ 100 }
    {
        rows_of_tick(self.rows)
    }

    /// Returns the x-coordinate of the left edge of row `k`.
    pub fn x(self, k: u64) -> u64
        requires { k ≤ 2 ^ 40 }
        ensures value { result ≡ x_of self k }
        ensures at_most { result ≤ 2 ^ 44 }
    {
        136 + self.scale() * k
    }

    /// Returns the number of ticks.
    pub fn ticks(self) -> u32
        ensures { result ≡ ticks_of self }
    {
        self.rows / self.tick() + 1
    }

    /// Returns the width of `rows` rows.
    pub fn width_of(self, rows: u32) -> u64
        ensures { result ≡ width_of self rows }
    {
        self.scale() * u64::from(rows)
    }

    /// Returns the number of lanes of factors, processors and applications.
    pub fn lanes(self) -> u8
        requires { IsWithinLimits self }
        ensures value { result ≡ lanes_of self }
        ensures few { result ≤ 22 }
    {
        self.factors + self.procs + self.apps
    }

    /// Returns lane `n`, where `n` is less than the number of lanes.
    pub fn lane(self, n: u8) -> Lane
        requires sheet { IsWithinLimits self }
        requires lane { n < lanes_of self }
        ensures value { result ≡ lane_of self n }
        ensures lane { IsLane result }
    {
        if n < self.factors {
            Lane::Factor(n)
        } else if n < self.factors + self.procs {
            Lane::Processor(n - self.factors)
        } else {
            Lane::Application(n - (self.factors + self.procs))
        }
    }

    fn room_above(self, n: u8) -> u64
        requires { IsWithinLimits self }
        ensures value { result ≡ room_above self n }
        ensures at_most { result ≤ 16 }
    {
        if n < self.factors {
            0
        } else if n < self.factors + self.procs {
            8
        } else {
            16
        }
    }

    /// Returns the y-coordinate of the top of lane `n`.
    pub fn lane_y(self, n: u8) -> u64
        requires { IsWithinLimits self }
        ensures value { result ≡ lane_y self n }
        ensures at_most { result ≤ 6000 }
    {
        72 + 20 * u64::from(n) + self.room_above(n)
    }

    /// Returns the y-coordinate of the top of the first curve.
    pub fn curves_y(self) -> u64
        requires { IsWithinLimits self }
        ensures value { result ≡ curves_y self }
        ensures at_most { result ≤ 6000 }
    {
        96 + 20 * u64::from(self.lanes())
    }

    /// Returns the y-coordinate of the bottom of the second curve.
    pub fn bottom(self) -> u64
        requires { IsWithinLimits self }
        ensures value { result ≡ bottom_of self }
        ensures at_most { result ≤ 7000 }
    {
        self.curves_y() + 120
    }

    /// Returns the width of the picture.
    pub fn width(self) -> u64
        ensures { result ≡ sheet_width self }
    {
        let width = 288 + self.scale() * u64::from(self.rows);
        width.max(912)
    }

    /// Returns the height of the picture.
    pub fn height(self) -> u64
        requires { IsWithinLimits self }
        ensures { result ≡ sheet_height self }
    {
        self.bottom() + 68
    }
}
