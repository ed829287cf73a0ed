// The text of the sample's problem.
ghost use Rattle.std.specs.Prelude.{◌≡◌, ◌≤◌, ◌++◌, length, IfOk, OnOk};
ghost use Rattle.std.specs.String.{string_bytes};
ghost use Rattle.tl_gen.specs.Samples.{ball_line, ball_lines, problem_text, text_of_lines};

use std::alloc::{AllocError, Global};
use tl_syntax::{Bytes, NoMemory};

/// The line that says that the ball of this number is in the room, without its end.
fn ball_line(alloc: Global, room: &str, ball: u32) -> Result<String, AllocError>
    ensures { IfOk result (λ line. string_bytes line ≡ ball_line room.now ball) }
{
    format!(in alloc; "  (at b{ball:04} {room})")
}

/// Puts a line for each ball at the end, which says that it is in the room.
fn put_balls(alloc: Global, text: &mut Bytes, room: &str, balls: u32) -> Result<(), NoMemory>
    ensures { OnOk result (text.new ≡ text.old ++ text_of_lines (ball_lines room.now balls)) }
{
    for before in 0..balls {
        let line = ball_line(alloc, room, before + 1)?;
        text.extend(line.as_bytes())?;
        text.extend(b"\n")?;
    }
    Ok(())
}

/// The text of the problem of so many balls, at most 100.
pub(crate) fn problem_text(alloc: Global, balls: u32) -> Result<Bytes, NoMemory>
    requires { balls ≤ 100 }
    ensures text { IfOk result (λ text. text ≡ problem_text balls) }
    ensures short { IfOk result (λ text. length text ≤ 4194304) }
{
    let mut text = Bytes::new(alloc);
    text.extend(b"(problem sample\n")?;
    text.extend(b" (init (room rooma) (room roomb) (at-robby rooma) (free left) (free right)\n")?;
    put_balls(alloc, &mut text, "rooma", balls)?;
    text.extend(b"  )\n")?;
    text.extend(b" (goal\n")?;
    put_balls(alloc, &mut text, "roomb", balls)?;
    text.extend(b"  ))\n")?;
    Ok(text)
}
