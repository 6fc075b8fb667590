// What a sheet is made of (01-scope 5.11): its density, its thickness and how stiff it is. Each routine takes the whole and looks at what it uses.
#![tactic(auto)]

ghost use Rattle.std.specs.Prelude.{◌≡◌};
ghost use Rattle.std.specs.Float.{binary64};
ghost use Rattle.material.specs.Material.{lame_of, is_finite_of, is_bad_of, tested_of, of_word, material_of, lame_material, young_material, stock_sheet};

use refusal::Tests;

// The word for a stiffness, where a material comes as numbers.
pub const LAME: u32 = 2;

pub const YOUNG: u32 = 3;

// Lamé's two parameters, or Young's modulus and Poisson's ratio.
#[derive(Clone, Copy)]
pub enum Stiffness {
    Lame { lambda: f64, myu: f64 },
    Young { e: f64, v: f64 },
}

// What a kernel computes with.
#[derive(Clone, Copy)]
pub struct LamePair {
    pub lambda: f64,
    pub myu: f64,
}

#[derive(Clone, Copy)]
pub struct Material {
    pub density: f64,
    pub thickness: f64,
    pub stiffness: Stiffness,
}

impl Stiffness {
    // A pair as it is, or that of Young's modulus and Poisson's ratio.
    #[tactic(auto, unfolding(crate::specs::Material::lame_of))]
    pub fn lame(self) -> LamePair
        ensures { result ≡ lame_of binary64 self }
    {
        match self {
            Stiffness::Lame { lambda, myu } => LamePair { lambda, myu },
            Stiffness::Young { e, v } => LamePair {
                lambda: (e * v) / ((1.0 + v) * (1.0 - 2.0 * v)),
                myu: e / (2.0 * (1.0 + v)),
            },
        }
    }

    // Whether both numbers, as they are given, are finite.
    #[tactic(auto, unfolding(crate::specs::Material::is_finite_of))]
    fn is_finite(self) -> bool
        ensures { result ≡ is_finite_of self }
    {
        match self {
            Stiffness::Lame { lambda, myu } => float::is_finite(lambda) & float::is_finite(myu),
            Stiffness::Young { e, v } => float::is_finite(e) & float::is_finite(v),
        }
    }

    // Whether it is none that a sheet can have: Young's modulus is not above 0, or Poisson's ratio not between -1 and 0.5.
    #[tactic(auto, unfolding(crate::specs::Material::is_bad_of))]
    fn is_bad(self) -> bool
        ensures { result ≡ is_bad_of binary64 self }
    {
        match self {
            Stiffness::Lame { lambda: _, myu: _ } => false,
            Stiffness::Young { e, v } => !((0.0 < e) & (-1.0 < v) & (v < 0.5)),
        }
    }

    // What a kernel with this stiffness tests, the other numbers that it reads being finite or not.
    #[tactic(auto, unfolding(crate::specs::Material::tested_of))]
    pub fn tests(
        self,
        others_finite: bool,
        turned: bool,
        zero_divisor: bool,
        bad_answer: bool,
    ) -> Tests
        ensures { result ≡ tested_of binary64 self others_finite turned zero_divisor bad_answer }
    {
        Tests {
            bad_input: !(others_finite & self.is_finite()),
            bad_stiffness: self.is_bad(),
            turned,
            zero_divisor,
            bad_answer,
        }
    }

    // By its word; any other word gives a modulus that is a zero where a is finite and a NaN where it is not, so that it is refused, with 7 or with 3.
    #[tactic(auto, unfolding(crate::specs::Material::of_word))]
    fn of_word(s: u32, a: f64, b: f64) -> Stiffness
        ensures { result ≡ of_word binary64 s a b }
    {
        match s {
            LAME => Stiffness::Lame { lambda: a, myu: b },
            YOUNG => Stiffness::Young { e: a, v: b },
            _ => Stiffness::Young { e: 0.0 * a, v: b },
        }
    }
}

impl Material {
    pub const STOCK_SHEET: Material = Material {
        density: 1400.0,
        // 2^-9
        thickness: 0.001953125,
        // E is 2^31.
        stiffness: Stiffness::Young {
            e: 2147483648.0,
            v: 0.25,
        },
    };

    // The constant, and by this contract what it is.
    pub fn stock_sheet() -> Material
        ensures { result ≡ stock_sheet binary64 }
    {
        Material::STOCK_SHEET
    }

    pub fn lame(density: f64, thickness: f64, lambda: f64, myu: f64) -> Material
        ensures { result ≡ lame_material density thickness lambda myu }
    {
        Material {
            density,
            thickness,
            stiffness: Stiffness::Lame { lambda, myu },
        }
    }

    pub fn young(density: f64, thickness: f64, e: f64, v: f64) -> Material
        ensures { result ≡ young_material density thickness e v }
    {
        Material {
            density,
            thickness,
            stiffness: Stiffness::Young { e, v },
        }
    }

    // From a word and four numbers, as it crosses to C.
    pub fn of_words(s: u32, density: f64, thickness: f64, a: f64, b: f64) -> Material
        ensures { result ≡ material_of binary64 s density thickness a b }
    {
        Material {
            density,
            thickness,
            stiffness: Stiffness::of_word(s, a, b),
        }
    }
}
