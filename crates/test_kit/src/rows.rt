//! The rows of a test program.

use std::rt::HostRuntime;
use std::{fs, io};

/// Calls `answer` for each row of `rows.txt`, in order. Rows are separated by a blank line, and the first line of a
/// row is its title. For each row, the title is printed after `> `, and then `answer` is called with the title and
/// the other lines.
///
/// # Errors
///
/// Returns an error if `rows.txt` cannot be read or a title cannot be printed, and otherwise the first error of
/// `answer`.
pub fn each_row<F: Fn(&str, &str) -> io::Result<()>>(rt: &HostRuntime, answer: F) -> io::Result<()>
    requires { F.IsAlwaysCallable answer }
{
    let rows = fs::read_to_string(rt, "rows.txt")?;
    answer_rows(rt, rows.as_str(), answer)
}

fn answer_rows<F: Fn(&str, &str) -> io::Result<()>>(
    rt: &HostRuntime,
    rows: &str,
    answer: F,
) -> io::Result<()>
    requires { F.IsAlwaysCallable answer }
{
    for row in rows.split("\n\n") {
        let (title, lines) = row.split_once('\n').unwrap_or((row, ""));
        println!(rt; "> {title}")?;
        answer(title, lines)?;
    }
    Ok(())
}
