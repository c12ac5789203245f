//! Laws of every draw.
ghost use Rattle.tower_base.specs.Draw.{Draws, IsOneToOne, IsOnto};

/// `sample_floyd2` reduces one word to a number below `n - 1` and another to one below `n`. It maps the
/// pairs of such numbers one to one onto the ordered pairs of distinct indexes below `n`.
pub fn law()
    ensures draws { Draws }
    ensures one_to_one { IsOneToOne }
    ensures onto { IsOnto }
{}
