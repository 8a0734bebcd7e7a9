// Config traits: at most 8, each 1 to 15. Their shape, and whether EstOnly is among them.
#![tactic(auto)]

ghost use Rattle.std.specs.Prelude.{◌≡◌, eqb, drop};
ghost use Rattle.lists.specs.Lists.{all};
ghost use Rattle.answer.specs.Answer.{refused};
ghost use Rattle.answer.specs.Refusal.{answered};
ghost use Rattle.config.specs.Config.{traits_of, is_trait, shape_of, establishment_only};

use answer::Refusal;

// An array with a count, as document 01 wants it. Traits stay bytes: `shape` answers 3 for one that is none.
#[derive(Clone, Copy)]
pub struct Config {
    pub count: usize,
    pub traits: [u8; 8],
}

const EST_ONLY: u8 = 1;

pub fn is_trait(t: u8) -> bool
    ensures { result ≡ is_trait t }
{
    matches!(t, 1..=15)
}

fn used_fit(c: Config) -> bool
    ensures { result ≡ all is_trait (traits_of c) }
{
    c.traits.iter().take(c.count).all(|t| is_trait(*t))
}

fn unused_zero(c: Config) -> bool
    ensures { result ≡ all (eqb 0) (drop c.count c.traits) }
{
    c.traits.iter().skip(c.count).all(|t| *t == 0)
}

// TooMany where the count is above 8, BadField where a used place is no trait or an unused one is not zero.
#[tactic(auto, unfolding(crate::specs::Config::shape_of))]
pub fn shape(c: Config) -> Result<(), Refusal>
    ensures { answered result ≡ refused (shape_of c) 0 0 }
{
    if 8 < c.count {
        return Err(Refusal::TooMany);
    }
    if used_fit(c) && unused_zero(c) {
        Ok(())
    } else {
        Err(Refusal::BadField)
    }
}

// "EstOnly counts at any place." The count may be any number here.
pub fn is_establishment_only(c: Config) -> bool
    ensures { result ≡ establishment_only c }
{
    c.traits[..c.count.min(8)].contains(&EST_ONLY)
}
