//! The line that tells why words are refused.
ghost use Rattle.std.specs.Prelude.{◌≡◌, ◌++◌, codes, IfOk, OnOk};
ghost use Rattle.sb_words.specs.Arguments.{name_of};
ghost use Rattle.sb_words.specs.Refusals.{allowed_for, misplaced_text, part_text, refusal_text};

use crate::argument::{Argument, Unfit};
use std::alloc::{AllocError, Global};

/// The line of a part that isn't allowed, and what is. Error: out of memory.
pub fn refusal_line(alloc: Global, unfit: Unfit<'_>) -> Result<Vec<u8>, AllocError>
    ensures { IfOk result (λ line. line.items ≡ refusal_text unfit.entry) }
{
    let mut line = Vec::new(alloc);
    line.extend_from_slice(b"error: ")?;
    push_part(&mut line, unfit)?;
    push_both(
        &mut line,
        " isn't allowed; allowed is ",
        allowed(unfit.part),
    )?;
    line.push(b'\n')?;
    Ok(line)
}

/// The line of an option that stands in front of a command. Error: out of memory.
pub fn misplaced_line(alloc: Global, unfit: Unfit<'_>) -> Result<Vec<u8>, AllocError>
    ensures { IfOk result (λ line. line.items ≡ misplaced_text unfit.entry) }
{
    let mut line = Vec::new(alloc);
    line.extend_from_slice(b"error: ")?;
    push_part(&mut line, unfit)?;
    line.extend_from_slice(b" has to stand behind the command\n")?;
    Ok(line)
}

/// The values that are allowed in a part's place.
fn allowed<'a>(part: Argument) -> &'a str
    ensures { result.now ≡ allowed_for part }
{
    match part {
        Argument::Tenants => "1 to 256",
        Argument::Bound => "1 to 1000",
        Argument::StepWork => "1 to 4294967295",
        Argument::Action => "check",
        Argument::Tenant => "0 to 255",
        Argument::Into => "a folder, without --tenant",
        Argument::Cells | Argument::Workers => "1 to 16",
        Argument::Port | Argument::Status => "0 to 65535",
        Argument::Connections => "0 to 1000000",
        Argument::Idle | Argument::IdleTransaction => "0 to 86400",
        Argument::FirstTenant => "0 to 999999000",
        Argument::TenantMemory => "0 to 1048576",
        Argument::Segment => "1 to 65536, with --journal",
        Argument::Journal => "a path, without --load",
        Argument::Sync => "always, second or never, with --journal",
        Argument::Renew => "auto or never",
        Argument::Log => "error, warning or info",
        Argument::Slow => "0 to 86400000",
        _ => "a path",
    }
}

/// A part, with the text that stands for it.
fn push_part(out: &mut Vec<u8>, unfit: Unfit<'_>) -> Result<(), AllocError>
    ensures { OnOk result (out.new.items ≡ out.old.items ++ part_text unfit.entry.part unfit.entry.text.now) }
{
    match unfit.part {
        Argument::Old | Argument::New | Argument::Action | Argument::Folder => {
            push_both(out, "the word ", unfit.text)
        }
        Argument::UntilInputEnds => push_both(out, "--until-input-ends", ""),
        option => push_option(out, option, unfit.text),
    }
}

fn push_option(out: &mut Vec<u8>, option: Argument, text: &str) -> Result<(), AllocError>
    ensures { OnOk result (out.new.items ≡ out.old.items ++ (codes "--" ++ name_of option ++ codes " " ++ text.now)) }
{
    push_both(out, "--", option.name())?;
    push_both(out, " ", text)
}

fn push_both(out: &mut Vec<u8>, label: &str, text: &str) -> Result<(), AllocError>
    ensures { OnOk result (out.new.items ≡ out.old.items ++ (label.now ++ text.now)) }
{
    out.extend_from_slice(label.as_bytes())?;
    out.extend_from_slice(text.as_bytes())?;
    Ok(())
}
