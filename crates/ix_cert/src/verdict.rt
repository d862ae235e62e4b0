ghost use Rattle.std.specs.Prelude.{◌≡◌, ◌≢◌, ◌<◌, ◌^◌, length, OnOk, IfErr};
ghost use Rattle.ix_cert.specs.declared.report.CertErr.{CertErr as Fault};
ghost use Rattle.ix_cert.specs.declared.report.CertErr.TheVariants.{Memory};
ghost use Rattle.ix_cert.specs.Certificates.{IsCertifiedText, IsFaultless, IsRefused, Accepts, Refuses};

use crate::check::check_report;
use crate::read::read_text;
use crate::report::CertErr;
use std::alloc::Global;

/// Checks the text of a report, of fewer than 2^32 bytes, which may come from anyone. A yes shows of each behaviour that its
/// times are legal for the printed problem and no legal schedule costs less, or, where it has no mode, that there is no legal
/// schedule (linear programming, duality). A no names the first line that fails, in the order of the steps: the form of the whole
/// text; then for one behaviour after the other its edges, windows, chains, cost, the bounds of its flow, balances and value, or the bounds,
/// ends and sum of its cycle.
pub fn certify(alloc: Global, bytes: &[u8]) -> Result<(), CertErr>
    requires { length bytes.now < 2 ^ 32 }
    ensures yes { OnOk result (IsCertifiedText bytes.now) }
    ensures ok { OnOk result (IsFaultless bytes.now) }
    ensures no { IfErr result (λ e. e ≢ Memory → IsRefused bytes.now e) }
    ensures accepts { IsFaultless bytes.now → Accepts result }
    ensures refuses { (e : Fault) → IsRefused bytes.now e → Refuses e result }
{
    match read_text(alloc, bytes) {
        Ok((report, first)) => check_report(alloc, &report, first),
        Err(error) => Err(error),
    }
}
