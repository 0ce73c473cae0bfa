//! The usage line.
ghost use Rattle.std.specs.Prelude.{◌≡◌, ◌++◌, IfOk, OnOk, codes, map};
ghost use Rattle.clap.specs.Simple.{shape_of};
ghost use Rattle.command_shape.specs.Usage.{names_after, usage_text};

use crate::set::command_set;
use clap::Command;
use std::alloc::{AllocError, Global};

/// How the program is called, without the line feed: the names of the command set.
pub fn usage_text(alloc: Global) -> Result<Vec<u8>, AllocError>
    ensures { IfOk result (λ text. text.items ≡ usage_text) }
{
    let set = command_set(alloc)?;
    let mut text = b"# usage: ".to_vec(alloc)?;
    text.extend_from_slice(set.get_name().as_bytes())?;
    put_names(&mut text, set.get_subcommands())?;
    Ok(text)
}

// Appends the names of the commands, a blank before the first and a bar before each other one.
fn put_names(text: &mut Vec<u8>, commands: &[Command]) -> Result<(), AllocError>
    ensures { OnOk result (text.new.items ≡ text.old.items ++ names_after (codes " ") (map (λ c. (shape_of c).name) commands.now)) }
{
    let mut mark = " ";
    for command in commands {
        text.extend_from_slice(mark.as_bytes())?;
        text.extend_from_slice(command.get_name().as_bytes())?;
        mark = "|";
    }
    Ok(())
}
