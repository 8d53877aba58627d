// A statement, and how it is spelt: its letter and three numbers.
ghost use Rattle.std.specs.Prelude.{◌≡◌};
ghost use Rattle.rules.specs.Statements.{letter_of, fields_of, statement_of, ToldApart};

use crate::three::Three;

/// A statement over the numbers of individuals, classes and roles, one variant for each form.
#[derive(Clone, Copy, PartialEq, Eq)]
pub enum Statement {
    /// a: the individual is in the class.
    Member {
        individual: u16,
        class: u16,
    },
    /// b: the pair of the two individuals is in the role.
    Related {
        source: u16,
        role: u16,
        target: u16,
    },
    /// c: the class is empty.
    Empty {
        class: u16,
    },
    /// d: every thing is in the class.
    Universal {
        class: u16,
    },
    /// e: each member of the class is the individual.
    Only {
        class: u16,
        individual: u16,
    },
    /// f: the individual is in the class, stated as one class within another.
    Nominal {
        individual: u16,
        class: u16,
    },
    /// g: each member of `sub` is in the class.
    Subclass {
        sub: u16,
        class: u16,
    },
    /// h: what is in `left` and in `right` is in the class.
    Both {
        left: u16,
        right: u16,
        class: u16,
    },
    /// i: what has a pair of the role into `target` is in the class.
    Reaches {
        role: u16,
        target: u16,
        class: u16,
    },
    /// j: each member of the class has a pair of the role into `target`.
    Requires {
        class: u16,
        role: u16,
        target: u16,
    },
    /// k: what has a pair of the role to itself is in the class.
    SelfWithin {
        role: u16,
        class: u16,
    },
    /// l: each member of the class has a pair of the role to itself.
    SelfPaired {
        class: u16,
        role: u16,
    },
    /// m: each pair of the role is in `within`.
    Subrole {
        role: u16,
        within: u16,
    },
    /// n: a pair of `first` and a pair of `second` that goes on from it make a pair of the role.
    Chain {
        first: u16,
        second: u16,
        role: u16,
    },
    /// o: each pair in `left` and in `right` is in the role.
    RoleBoth {
        left: u16,
        right: u16,
        role: u16,
    },
    /// p: each pair from `sources` to `targets` is in the role.
    Product {
        sources: u16,
        targets: u16,
        role: u16,
    },
    /// q: each pair of the role goes from `domain` to `range`.
    DomainRange {
        role: u16,
        domain: u16,
        range: u16,
    },
}

impl Statement {
    /// The statement with this letter and these fields; a field that its form does not use is not looked at. One arm for each form.
    pub fn new(letter: char, first: u16, second: u16, third: u16) -> Option<Statement>
        ensures { result ≡ statement_of letter first second third }
    {
        match letter {
            'a' => Some(Statement::Member {
                individual: first,
                class: second,
            }),
            'b' => Some(Statement::Related {
                source: first,
                role: second,
                target: third,
            }),
            'c' => Some(Statement::Empty { class: first }),
            'd' => Some(Statement::Universal { class: first }),
            'e' => Some(Statement::Only {
                class: first,
                individual: second,
            }),
            'f' => Some(Statement::Nominal {
                individual: first,
                class: second,
            }),
            'g' => Some(Statement::Subclass {
                sub: first,
                class: second,
            }),
            'h' => Some(Statement::Both {
                left: first,
                right: second,
                class: third,
            }),
            'i' => Some(Statement::Reaches {
                role: first,
                target: second,
                class: third,
            }),
            'j' => Some(Statement::Requires {
                class: first,
                role: second,
                target: third,
            }),
            'k' => Some(Statement::SelfWithin {
                role: first,
                class: second,
            }),
            'l' => Some(Statement::SelfPaired {
                class: first,
                role: second,
            }),
            'm' => Some(Statement::Subrole {
                role: first,
                within: second,
            }),
            'n' => Some(Statement::Chain {
                first,
                second,
                role: third,
            }),
            'o' => Some(Statement::RoleBoth {
                left: first,
                right: second,
                role: third,
            }),
            'p' => Some(Statement::Product {
                sources: first,
                targets: second,
                role: third,
            }),
            'q' => Some(Statement::DomainRange {
                role: first,
                domain: second,
                range: third,
            }),
            _ => None,
        }
    }

    /// The letter of its form.
    pub fn letter(self) -> char
        ensures { result ≡ letter_of self }
    {
        match self {
            Statement::Member { .. } => 'a',
            Statement::Related { .. } => 'b',
            Statement::Empty { .. } => 'c',
            Statement::Universal { .. } => 'd',
            Statement::Only { .. } => 'e',
            Statement::Nominal { .. } => 'f',
            Statement::Subclass { .. } => 'g',
            Statement::Both { .. } => 'h',
            Statement::Reaches { .. } => 'i',
            Statement::Requires { .. } => 'j',
            Statement::SelfWithin { .. } => 'k',
            Statement::SelfPaired { .. } => 'l',
            Statement::Subrole { .. } => 'm',
            Statement::Chain { .. } => 'n',
            Statement::RoleBoth { .. } => 'o',
            Statement::Product { .. } => 'p',
            Statement::DomainRange { .. } => 'q',
        }
    }

    /// Its three fields in order, 0 for one not in use; letter and fields together tell every statement apart. One arm for each form.
    pub fn fields(self) -> Three<u16>
        ensures value { result ≡ fields_of self }
        ensures apart { ToldApart }
    {
        match self {
            Statement::Member { individual, class } => Three::new(individual, class, 0),
            Statement::Related {
                source,
                role,
                target,
            } => Three::new(source, role, target),
            Statement::Empty { class } => Three::new(class, 0, 0),
            Statement::Universal { class } => Three::new(class, 0, 0),
            Statement::Only { class, individual } => Three::new(class, individual, 0),
            Statement::Nominal { individual, class } => Three::new(individual, class, 0),
            Statement::Subclass { sub, class } => Three::new(sub, class, 0),
            Statement::Both { left, right, class } => Three::new(left, right, class),
            Statement::Reaches {
                role,
                target,
                class,
            } => Three::new(role, target, class),
            Statement::Requires {
                class,
                role,
                target,
            } => Three::new(class, role, target),
            Statement::SelfWithin { role, class } => Three::new(role, class, 0),
            Statement::SelfPaired { class, role } => Three::new(class, role, 0),
            Statement::Subrole { role, within } => Three::new(role, within, 0),
            Statement::Chain {
                first,
                second,
                role,
            } => Three::new(first, second, role),
            Statement::RoleBoth { left, right, role } => Three::new(left, right, role),
            Statement::Product {
                sources,
                targets,
                role,
            } => Three::new(sources, targets, role),
            Statement::DomainRange {
                role,
                domain,
                range,
            } => Three::new(role, domain, range),
        }
    }
}
