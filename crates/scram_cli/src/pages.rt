//! The pages about the command.

ghost use Rattle.std.specs.Prelude.{◌≡◌};
ghost use Rattle.scram_cli.specs.Pages.{page_text};

/// A page about the command.
#[derive(Clone, Copy)]
pub enum Page {
    /// The forms and the statuses, one on each line.
    Help,
    /// The version of the program, and the toolchain that checked its proofs.
    Version,
}

/// The text of the page of the forms and the statuses, as in docs/FORMATS.md.
pub const HELP: &str = concat!(
    "scram run SPEC SCRIPT              flies a mission and prints its trace\n",
    "scram watch SPEC SCRIPT            flies a mission while readers look at it and prints its last summary\n",
    "scram pair SPEC SCRIPT UNIT FRAME STEP  flies a mission with the kernel on two units, one of which may halt\n",
    "scram check SPEC                   tells whether a specification is accepted\n",
    "scram bounds SPEC                  tells which bounds a specification has to give\n",
    "scram props SPEC TRACE             judges a finished trace\n",
    "scram replay SPEC SCRIPT SCHEDULE  flies a mission by a schedule and prints its trace\n",
    "scram explain SPEC [SCRIPT]        tells why one of them is refused, or what is idle\n",
    "scram fill SPEC                    prints it with the bounds and the window that serve\n",
    "scram choices SPEC                 prints what each rule chooses, from where and how often\n",
    "scram choose SPEC CONF STATE..     prints what is chosen in a state, as battery=low -left\n",
    "scram summary SPEC TRACE           prints what a flight came to\n",
    "scram columns SPEC TRACE           prints a trace as a table of comma-separated values\n",
    "scram picture SPEC TRACE           prints a trace as a picture, in SVG\n",
    "scram faults SPEC COUNT            prints each script with so many faults, 1 to 3\n",
    "scram flights SPEC SCRIPTS         flies each line of a file and prints a line on each\n",
    "scram gen N                        prints the mission of the number N, 0 to 999999\n",
    "scram fly N                        flies that mission and tells of it in a line\n",
    "scram --help                       prints these lines\n",
    "scram --version                    prints the version\n",
    "\n",
    "status 0   what was asked for is done\n",
    "status 2   the words have no form\n",
    "status 3   a file was not read\n",
    "status 4   the output was not written, or not all of it\n",
    "status 5   the specification breaks a rule of its document\n",
    "status 6   the specification is not accepted\n",
    "status 7   the script breaks a rule of its document\n",
    "status 8   the script leaves the failure assumption\n",
    "status 9   memory is wanting\n",
    "status 10  the trace breaks a property of reconfigurations\n",
    "status 11  the trace breaks a rule of traces\n",
    "status 12  the schedule breaks a rule of schedules, or does not fly the mission to its end\n",
    "status 13  a word names nothing of the specification\n",
    "\n",
    "docs/GUIDE.md tells how to write a mission, docs/FORMATS.md what each line means.\n",
);

/// The text of the page of the version and of the logic in which the program is proved.
pub const VERSION: &str = "scram 1.0.0, proved with Rattle logic dac8208d650f15bf\n";

/// Returns the text of a page.
pub fn page_text(page: Page) -> &'static str
    ensures { result.now ≡ page_text page }
{
    match page {
        Page::Help => HELP,
        Page::Version => VERSION,
    }
}
