//! `import`: what another program says of a tree, as a tree file.

ghost use Rattle.std.specs.Prelude.{◌≡◌, ◌≤◌, ◌⊎◌, true};
ghost use Rattle.otp_commands.specs.Imported.{IsImported, IsMade};
ghost use Rattle.otp_exit.specs.Devices.{HasTree};
ghost use Rattle.otp_exit.specs.Told.{TellsFirst};
ghost use Rattle.otp_exit.specs.declared.ending.ProgramEnd.TheVariants.{FileNotRead, OutOfMemory};

use otp_exit::ProgramEnd;
use otp_import::{Import, ImportFault, import_text, write_fault};
use otp_sim::{Failed, Output, write_all};
use std::alloc::Global;

/// Writes what a text says as a tree file, or what each start runs, and tells what has no counterpart; or tells why it says no tree.
pub(crate) fn import_file<'a, W: Output, E: Output>(
    alloc: Global,
    name: &'a str,
    file: &[u8],
    of_commands: bool,
    output: &mut W,
    errors: &mut E,
) -> ProgramEnd<'a>
    ensures done { IsImported of_commands result (W.seen output.old) (W.seen output.new) }
    ensures first { TellsFirst true result (E.seen errors.old) (E.seen errors.new) }
    ensures kept { (E.seen errors.old).failures ≤ (E.seen errors.new).failures }
{
    match import_text(alloc, name, file) {
        Ok(import) => write_import(&import, of_commands, output, errors),
        Err(ImportFault::OutOfMemory) => ProgramEnd::OutOfMemory,
        Err(fault) => tell_fault(alloc, name, file, &fault, errors),
    }
}

/// The one of the two files of an import that is wanted.
fn chosen(import: &Import, of_commands: bool) -> &[u8]
    requires tree { HasTree import.now.tree.items }
    ensures { IsMade of_commands result.now }
{
    if of_commands {
        import.commands.as_slice()
    } else {
        import.tree.as_slice()
    }
}

/// Writes one of the two files of an import, and tells its remarks.
fn write_import<'a, W: Output, E: Output>(
    import: &Import,
    of_commands: bool,
    output: &mut W,
    errors: &mut E,
) -> ProgramEnd<'a>
    requires tree { HasTree import.now.tree.items }
    ensures done { IsImported of_commands result (W.seen output.old) (W.seen output.new) }
    ensures first { TellsFirst true result (E.seen errors.old) (E.seen errors.new) }
    ensures kept { (E.seen errors.old).failures ≤ (E.seen errors.new).failures }
{
    match write_all(output, chosen(import, of_commands)) {
        Ok(()) => {
            // Where nothing can be told, what was written is still right.
            let _told = write_all(errors, import.remarks.as_slice());
            ProgramEnd::Done
        }
        Err(Failed) => ProgramEnd::OutputFailed,
    }
}

/// Tells why a text says no tree, and where.
fn tell_fault<'a, E: Output>(
    alloc: Global,
    name: &str,
    file: &[u8],
    fault: &ImportFault,
    errors: &mut E,
) -> ProgramEnd<'a>
    ensures ending { (result ≡ FileNotRead) ⊎ (result ≡ OutOfMemory) }
    ensures first { TellsFirst true result (E.seen errors.old) (E.seen errors.new) }
    ensures kept { (E.seen errors.old).failures ≤ (E.seen errors.new).failures }
{
    let mut text = Vec::new(alloc);
    let Ok(()) = write_fault(name, file, fault, &mut text) else {
        return ProgramEnd::OutOfMemory;
    };
    let _told = write_all(errors, text.as_slice());
    ProgramEnd::FileNotRead
}
