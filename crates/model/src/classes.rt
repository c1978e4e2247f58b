// The five classes of power units.
ghost use Rattle.std.specs.Prelude.{◌≡◌, IfErr};
ghost use Rattle.std.specs.Result.{result_ok};
ghost use Rattle.model.specs.Classes.{class_number, is_home, is_low_cost, is_registered, numbered_class};

#[derive(Clone, Copy, PartialEq, Eq, Debug)]
pub enum Class {
    Ordinary,
    // Low-cost or must-run.
    LowCost,
    // Registered as a CDM project.
    Registered,
    RegisteredLowCost,
    // Power from another grid; every other class is a home unit.
    Import,
}

// A number that tells no case of an enum.
#[derive(Clone, Copy, PartialEq, Eq, Debug)]
pub struct UnknownNumber(pub u8);

impl From<Class> for u8 {
    ghost from_gives = { λ class number. number ≡ class_number class };

    fn from(class: Class) -> u8 {
        match class {
            Class::Ordinary => 0,
            Class::LowCost => 1,
            Class::Registered => 2,
            Class::RegisteredLowCost => 3,
            Class::Import => 4,
        }
    }
}

impl TryFrom<u8> for Class {
    type Error = UnknownNumber;

    ghost try_from_gives = { λ number told. (result_ok told ≡ numbered_class number) × IfErr told (λ unknown. unknown.0 ≡ number) };

    fn try_from(number: u8) -> Result<Class, UnknownNumber> {
        match number {
            0 => Ok(Class::Ordinary),
            1 => Ok(Class::LowCost),
            2 => Ok(Class::Registered),
            3 => Ok(Class::RegisteredLowCost),
            4 => Ok(Class::Import),
            _ => Err(UnknownNumber(number)),
        }
    }
}

impl Class {
    pub fn is_low_cost(self) -> bool
        ensures { result ≡ is_low_cost self }
    {
        matches!(self, Class::LowCost | Class::RegisteredLowCost)
    }

    pub fn is_registered(self) -> bool
        ensures { result ≡ is_registered self }
    {
        matches!(self, Class::Registered | Class::RegisteredLowCost)
    }

    pub fn is_home(self) -> bool
        ensures { result ≡ is_home self }
    {
        !matches!(self, Class::Import)
    }
}
