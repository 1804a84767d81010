//! The certificate that `verify` reads.

ghost use Rattle.std.specs.Prelude.{◌≡◌, ◌≢◌, ◌≤◌, ◌∷◌, ◌++◌, [], Some, length, IfOk, IfErr, IfSome};
ghost use Rattle.prta_certfile.specs.Laws.{AreLevels};
ghost use Rattle.prta_cli.specs.declared.status.Status.{Status};
ghost use Rattle.prta_cli.specs.Answer.{verification, IsCertificateOf};
ghost use Rattle.prta_cli.specs.Ending.{status_of, line_of, Tells};
ghost use Rattle.prta_cli.specs.Causes.{IsBeforeOut, IsLine};

use crate::ending::Ending;
use crate::input::{InputFault, refuse};
use prta_certfile::{CERT_LIMIT, CertFault, Certificate, read_cert};
use prta_outside::{Shelf, ShelfFault};
use prta_sheet::Sheet;
use std::alloc::Global;

/// The certificate of a sheet under a name, or how the command ends.
pub fn certificate_under<S: Shelf>(
    alloc: Global,
    sheet: &Sheet,
    name: &str,
    shelf: &mut S,
) -> Result<Certificate, Ending>
    ensures certificate { IfOk result (λ certificate. IfSome (S.held shelf.old) (λ files. IsCertificateOf sheet.now (files name.now) certificate)) }
    ensures levels { IfOk result (AreLevels sheet.now.tasks sheet.now.settings.cap) }
    ensures tells { IfErr result (λ ending. IfSome (S.held shelf.old) (λ files. Tells ending (verification sheet.now (files name.now)))) }
    ensures fault { IfErr result (λ ending. status_of ending ≡ Status.ReadFault → S.faults shelf.new ≡ S.faults shelf.old ++ name.now ∷ []) }
    ensures no_fault { IfErr result (λ ending. status_of ending ≢ Status.ReadFault → S.faults shelf.new ≡ S.faults shelf.old) }
    ensures read { IfOk result (λ _. S.faults shelf.new ≡ S.faults shelf.old) }
    ensures refusals { IfErr result (λ ending. IsBeforeOut (status_of ending)) }
    ensures line { IfErr result (λ ending. IsLine (status_of ending) (line_of ending)) }
    ensures kept { S.held shelf.new ≡ S.held shelf.old }
{
    match shelf.read(alloc, name, CERT_LIMIT) {
        Ok(bytes) => certificate_of(alloc, sheet, &bytes),
        Err(ShelfFault::Failed) => Err(Ending::ReadFault),
        Err(ShelfFault::TooLong { .. }) => {
            Err(refuse(alloc, InputFault::Certificate(CertFault::TooLong)))
        }
        Err(ShelfFault::NoMemory) => Err(Ending::NoMemory),
    }
}

// The certificate that the bytes are, or how the command ends.
fn certificate_of(alloc: Global, sheet: &Sheet, bytes: &[u8]) -> Result<Certificate, Ending>
    requires { length bytes.now ≤ CERT_LIMIT }
    ensures certificate { IfOk result (λ certificate. IsCertificateOf sheet.now (Some bytes.now) certificate) }
    ensures levels { IfOk result (AreLevels sheet.now.tasks sheet.now.settings.cap) }
    ensures tells { IfErr result (λ ending. Tells ending (verification sheet.now (Some bytes.now))) }
    ensures no_fault { IfErr result (λ ending. status_of ending ≢ Status.ReadFault) }
    ensures refusals { IfErr result (λ ending. IsBeforeOut (status_of ending)) }
    ensures line { IfErr result (λ ending. IsLine (status_of ending) (line_of ending)) }
{
    match read_cert(alloc, sheet, bytes) {
        Ok(certificate) => Ok(certificate),
        Err(CertFault::NoMemory) => Err(Ending::NoMemory),
        Err(fault) => Err(refuse(alloc, InputFault::Certificate(fault))),
    }
}
