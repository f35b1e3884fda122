//! The footer of a run as octets, both ways.

ghost use Rattle.std.specs.Prelude.{◌≡◌, ◌++◌, None, OnOk, IfSome};
ghost use Rattle.octet_fields.specs.Answers.{Answers};
ghost use Rattle.octet_fields.specs.Reading.{whole};
ghost use Rattle.run_pages.specs.declared.footer.Footer.{Footer as AFooter};
ghost use Rattle.run_pages.specs.Footer.{IsFooter, footer_at, footer_octets};

use octet_fields::{Short, put_u32, put_u64, u32_at, u64_at};
use std::alloc::AllocError;

/// The octet at which the index begins, and the number of pages and of rows.
#[derive(Clone, Copy, Debug, PartialEq, Eq)]
pub struct Footer {
    pub at: u64,
    pub pages: u32,
    pub rows: u64,
}

/// The octets of a footer.
pub const FOOTER_SIZE: u64 = 20;

/// The fields that all of the octets are.
#[tactic(auto, unfolding(crate::specs::Footer::footer_at))]
fn whole_footer(octets: &[u8]) -> Result<Footer, Short>
    ensures { Answers (λ footer. footer) result (whole footer_at octets.now) }
{
    let (at, rest) = u64_at(octets)?;
    let (pages, rest) = u32_at(rest)?;
    let (rows, rest) = u64_at(rest)?;
    if !rest.is_empty() {
        return Err(Short);
    }
    Ok(Footer { at, pages, rows })
}

/// The footer that octets spell, or none where they spell none.
pub fn read_footer(octets: &[u8]) -> Option<Footer>
    ensures some { IfSome result (λ footer. IsFooter footer × (octets.now ≡ footer_octets footer)) }
    ensures none { result ≡ None → (footer : AFooter) → IsFooter footer → octets.now ≡ footer_octets footer → ⊥ }
{
    whole_footer(octets).ok()
}

/// Adds the one spelling of a footer to a buffer.
#[tactic(auto, unfolding(crate::specs::Footer::footer_octets))]
pub fn put_footer(out: &mut Vec<u8>, footer: Footer) -> Result<(), AllocError>
    requires { IsFooter footer }
    ensures { OnOk result (out.new.items ≡ out.old.items ++ footer_octets footer) }
{
    put_u64(out, footer.at)?;
    put_u32(out, footer.pages)?;
    put_u64(out, footer.rows)
}
