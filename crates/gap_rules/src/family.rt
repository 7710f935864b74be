//! The nodes of the families of a certificate.

ghost use Rattle.std.specs.Prelude.{◌≡◌, ◌∷◌, [], ◌<◌, length};
ghost use Rattle.price_certificate.specs.declared.certificate.Node.TheVariants.{Whole};
ghost use Rattle.gap_rules.specs.Refusals.{cover_nodes};

use price_certificate::{Certificate, Node};

/// The nodes of a family's cover. Format 1 has none: the family is one whole leaf, which the caller lends.
pub fn nodes_of<'a>(cert: &'a Certificate, family: usize, one: &'a [Node]) -> &'a [Node]
    requires one { one.now ≡ Whole ∷ [] }
    requires covers { cert.now.format ≡ 2 → family < length cert.now.covers }
    ensures { result.now ≡ cover_nodes cert.now family }
{
    if cert.format == 2 {
        cert.covers.as_slice()[family].as_slice()
    } else {
        one
    }
}
