//! What a map of case gives.
ghost use Rattle.std.specs.Prelude.{◌≡◌};
ghost use Rattle.regress_meaning.specs.TableParts.{image, PairsRise};

use regress_front_sets::CodePoint;

/// What the map of these pairs gives for the code point: itself where it isn't listed.
pub(crate) fn image(pairs: &[(CodePoint, CodePoint)], c: CodePoint) -> CodePoint
    requires { PairsRise pairs.now }
    ensures { result ≡ image pairs.now c }
{
    match pairs.binary_search_by_key(&c, |pair| pair.0) {
        Ok(place) => pairs[place].1,
        Err(_) => c,
    }
}
