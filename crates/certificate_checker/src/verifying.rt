// The check of a certificate.
ghost use Rattle.std.specs.Prelude.{◌<◌, ◌^◌, IfOk, IfErr, OnOk, length};
ghost use Rattle.certificate_checker.specs.Verified.{IsVerified};
ghost use Rattle.certificate_checker.specs.Texts.{CertificateForm, IsAccepted, IsRefusedAs};

use crate::class_judge::judge_classes;
use crate::matrix_judge::judge_matrix;
use crate::order_judge::judge_orders;
use crate::{CertRefusal, TypeRows, Verdict};
use certificate_reader::{Kind, read_head};
use crm_outside::Numbers;
use order_core::OrderSet;
use std::alloc::Global;

/// Judges a certificate text against the records: their orders, the extents that are periods, their types, and
/// the triples that are due, whose subjects have incompatible classes. The first faulty line decides. Each claim
/// is judged by its own tree or placing alone.
pub fn verify(
    alloc: Global,
    orders: &OrderSet,
    periods: &Numbers,
    types: &TypeRows,
    due: &Numbers,
    text: &[u8],
) -> Result<Verdict, CertRefusal>
    requires { length text.now < 2 ^ 32 }
    ensures verified { IfOk result (λ v. IsVerified orders.now periods.now types.now due.now text.now v) }
    ensures accepted { OnOk result (IsAccepted CertificateForm 64 text.now 0) }
    ensures refused { IfErr result (λ e. IsRefusedAs CertificateForm 64 text.now 0 e) }
{
    let head = read_head(text)?;
    match head.value {
        Kind::Orders => judge_orders(alloc, orders, periods.as_slice(), false, text, head.to),
        Kind::SharedOrders => judge_orders(alloc, orders, periods.as_slice(), true, text, head.to),
        Kind::Classes => judge_classes(alloc, types.as_slice(), due.as_slice(), text, head.to),
        Kind::Matrix => judge_matrix(alloc, orders, text, head.to),
    }
}
