//! Pieces of a picture: boxes, names and labels, made without allocating.

ghost use Rattle.std.specs.Prelude.{◌≡◌, ◌<◌, ◌≤◌, ◌+◌, ◌++◌, ◌^◌, length, decimal};
ghost use Rattle.scram_types.specs.declared.limits.TheConstants.{MAX_LINE_BYTES};
ghost use Rattle.picture_form.specs.Boxes.{box_text, frames_text, label_text, name_text, place_text, placed_text};

use itoa::Buffer;
use trace_text::lines::Line;

/// Appends a number in decimal.
pub fn add_number(line: &mut Line, number: u64)
    requires { length line.old + 20 ≤ MAX_LINE_BYTES }
    ensures text { line.new ≡ line.old ++ decimal number }
    ensures short { length line.new ≤ length line.old + 20 }
{
    let mut buffer = Buffer::new();
    line.text(buffer.format(number).as_bytes());
}

#[tactic(auto, unfolding(crate::specs::Boxes::place_text))]
fn add_place(line: &mut Line, x: u64, y: u64)
    requires { length line.old + 51 ≤ MAX_LINE_BYTES }
    ensures text { line.new ≡ line.old ++ place_text x y }
    ensures short { length line.new ≤ length line.old + 51 }
{
    line.text(b" x=\"");
    add_number(line, x);
    line.text(b"\" y=\"");
    add_number(line, y);
    line.text(b"\"");
}

/// Appends the attributes of the position and the size of a box, whose height is 16 pixels.
#[tactic(auto, unfolding(crate::specs::Boxes::box_text))]
pub fn add_box(line: &mut Line, x: u64, y: u64, width: u64)
    requires { length line.old + 92 ≤ MAX_LINE_BYTES }
    ensures text { line.new ≡ line.old ++ box_text x y width }
    ensures short { length line.new ≤ length line.old + 92 }
{
    add_place(line, x, y);
    line.text(b" width=\"");
    add_number(line, width);
    line.text(b"\" height=\"16\"");
}

/// Appends the text element with the name of a lane, to the left of the lane's rows. The name has at most 16 bytes,
/// and `y` is the y-coordinate of the text.
pub fn add_name(line: &mut Line, y: u64, name: &[u8])
    requires room { length line.old + 79 ≤ MAX_LINE_BYTES }
    requires name { length name.now ≤ 16 }
    ensures text { line.new ≡ line.old ++ name_text y name.now }
    ensures short { length line.new ≤ length line.old + 79 }
{
    line.text(b"<text class=\"name\" x=\"128\" y=\"");
    add_number(line, y);
    line.text(b"\">");
    line.text(name);
    line.text(b"</text>");
}

/// Appends a text element with the given class, position and text. The class has at most 10 bytes, and the text has
/// at most 33 bytes.
#[tactic(auto, unfolding(crate::specs::Boxes::placed_text))]
pub fn add_placed(line: &mut Line, class: &[u8], x: u64, y: u64, text: &[u8])
    requires room { length line.old + 120 ≤ MAX_LINE_BYTES }
    requires class { length class.now ≤ 10 }
    requires text { length text.now ≤ 33 }
    ensures text { line.new ≡ line.old ++ placed_text class.now x y text.now }
    ensures short { length line.new ≤ length line.old + 120 }
{
    line.text(b"<text class=\"");
    line.text(class);
    line.text(b"\"");
    add_place(line, x, y);
    line.text(b">");
    line.text(text);
    line.text(b"</text>");
}

/// Appends the label of a box, or nothing if the box is too narrow for the label. The label has at most 33 bytes.
pub fn add_label(line: &mut Line, x: u64, y: u64, width: u64, label: &[u8])
    requires room { length line.old + 120 ≤ MAX_LINE_BYTES }
    requires label { length label.now ≤ 33 }
    requires x { x ≤ 2 ^ 44 }
    requires y { y ≤ 6000 }
    ensures text { line.new ≡ line.old ++ label_text x y width label.now }
    ensures short { length line.new ≤ length line.old + 120 }
{
    if 7 * label.len() as u64 + 3 <= width {
        add_placed(line, b"value", x + 3, y + 12, label);
    }
}

/// Appends the numbers of the first and the last frame of a span of `rows` rows that begins in row `k`. It appends
/// one number if `rows` is 1, and nothing if `rows` is 0.
pub fn add_frames(line: &mut Line, k: u32, rows: u32)
    requires { length line.old + 52 ≤ MAX_LINE_BYTES }
    ensures text { line.new ≡ line.old ++ frames_text k rows }
    ensures short { length line.new ≤ length line.old + 52 }
{
    if rows == 1 {
        line.text(b" frame ");
        line.number(k);
    } else if rows > 1 {
        line.text(b" frames ");
        line.number(k);
        line.text(b" to ");
        add_number(line, u64::from(k) + u64::from(rows - 1));
    }
}
