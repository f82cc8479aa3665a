//! A maker of requests: which command, and what stands in the fields of its form, is drawn by lot, the same in each
//! run. Rows are named by the numbers that were drawn for them, so that many requests fit.
use desk_core::{Command, Key, Request};
use part_core::{
    Answer, Day, Field, FieldKind, Flags, Formed, Ids, Serial, Serials, Side, Status, Text,
    flags_of,
};
use std::alloc::Global;
use std::test::Fail;

/// How often each command is made beside the others.
pub const OFTEN: &[(&str, u64)] = &[
    ("add_category", 3),
    ("add_location", 3),
    ("add_part", 2),
    ("retire_part", 1),
    ("add_line", 5),
    ("drop_line", 2),
    ("add_substitute", 5),
    ("drop_substitute", 2),
    ("found", 30),
    ("add", 6),
    ("remove", 5),
    ("count", 5),
    ("transfer", 6),
    ("split", 6),
    ("merge", 6),
    ("serialise", 6),
    ("set_status", 5),
    ("install", 14),
    ("uninstall", 8),
    ("disassemble", 6),
    ("reinstate", 6),
    ("order", 10),
    ("order_line", 20),
    ("issue_order", 14),
    ("receive", 20),
    ("allocate_sale", 30),
    ("ship", 14),
    ("return_item", 8),
    ("close_order", 4),
    ("cancel_order", 2),
    ("build", 12),
    ("issue_build", 14),
    ("hold_build", 3),
    ("cancel_build", 2),
    ("outputs", 25),
    ("complete_output", 20),
    ("cancel_output", 3),
    ("scrap_output", 3),
    ("allocate_build", 40),
    ("auto_allocate", 10),
    ("release", 3),
    ("complete_build", 12),
    ("consume", 14),
];

/// How often all commands are made together.
fn often() -> u64 {
    let mut all = 0u64;
    for (_, times) in OFTEN {
        all = all.saturating_add(*times);
    }
    all
}

/// Draws numbers by lot, the same ones in each run.
#[derive(Drop)]
struct Lots {
    state: u64,
}

impl Lots {
    /// A number below the bound, 0 where that is 0.
    fn below(&mut self, bound: u64) -> u64 {
        self.state = self
            .state
            .wrapping_mul(6_364_136_223_846_793_005)
            .wrapping_add(1_442_695_040_888_963_407);
        (self.state >> 33u32).checked_rem(bound).unwrap_or(0)
    }

    /// One of the numbers: three times of four one of the six that stand nearest to the start, or to the end; now and
    /// then any number.
    fn one_of(&mut self, numbers: &[u64], from_start: bool) -> u64 {
        if numbers.is_empty() || self.below(40) == 0 {
            return self.below(300);
        }
        let count = numbers.len() as u64;
        let near = if self.below(4) == 0 {
            count
        } else {
            count.min(6)
        };
        let steps = self.below(near);
        let place = if from_start {
            steps
        } else {
            count.saturating_sub(steps).saturating_sub(1)
        };
        numbers.get(place as usize).copied().unwrap_or(0)
    }
}

/// The numbers that were drawn for the rows of each table, and for outputs among the items.
#[derive(Drop)]
struct Drawn {
    categories: Vec<u64>,
    locations: Vec<u64>,
    parts: Vec<u64>,
    lines: Vec<u64>,
    substitutes: Vec<u64>,
    items: Vec<u64>,
    outputs: Vec<u64>,
    orders: Vec<u64>,
    order_lines: Vec<u64>,
    builds: Vec<u64>,
    allocations: Vec<u64>,
}

impl Drawn {
    fn new(alloc: Global) -> Self {
        Drawn {
            categories: Vec::new(alloc),
            locations: Vec::new(alloc),
            parts: Vec::new(alloc),
            lines: Vec::new(alloc),
            substitutes: Vec::new(alloc),
            items: Vec::new(alloc),
            outputs: Vec::new(alloc),
            orders: Vec::new(alloc),
            order_lines: Vec::new(alloc),
            builds: Vec::new(alloc),
            allocations: Vec::new(alloc),
        }
    }

    /// Adds the numbers that a command drew.
    fn add(&mut self, verb: &str, numbers: &[u64]) -> Result<(), Fail> {
        match verb {
            "add_category" => self.categories.extend_from_slice(numbers)?,
            "add_location" => self.locations.extend_from_slice(numbers)?,
            "add_part" => self.parts.extend_from_slice(numbers)?,
            "add_line" => self.lines.extend_from_slice(numbers)?,
            "add_substitute" => self.substitutes.extend_from_slice(numbers)?,
            "order" => self.orders.extend_from_slice(numbers)?,
            "order_line" => self.order_lines.extend_from_slice(numbers)?,
            "build" => self.builds.extend_from_slice(numbers)?,
            "allocate_sale" | "allocate_build" | "auto_allocate" => {
                self.allocations.extend_from_slice(numbers)?
            }
            "outputs" => {
                self.outputs.extend_from_slice(numbers)?;
                self.items.extend_from_slice(numbers)?
            }
            _ => self.items.extend_from_slice(numbers)?,
        }
        Ok(())
    }

    /// The numbers of the rows that a field of a command asks for, and whether the first of them are named most
    /// often, or else the last.
    fn asked_by(&self, verb: &str, name: &str) -> (&[u64], bool) {
        match (verb, name) {
            (_, "category") | ("add_category", "parent") => (self.categories.as_slice(), true),
            (_, "location") | ("add_location", "parent") => (self.locations.as_slice(), true),
            (_, "part" | "template" | "assembly" | "component") => (self.parts.as_slice(), true),
            ("receive" | "allocate_sale", "line") => (self.order_lines.as_slice(), false),
            (_, "line") => (self.lines.as_slice(), true),
            (_, "substitute") => (self.substitutes.as_slice(), false),
            (_, "output") => (self.outputs.as_slice(), false),
            (_, "order") => (self.orders.as_slice(), false),
            (_, "build") => (self.builds.as_slice(), false),
            (_, "allocation") => (self.allocations.as_slice(), false),
            _ => (self.items.as_slice(), false),
        }
    }
}

/// Makes requests up.
#[derive(Drop)]
pub struct Maker {
    lots: Lots,
    drawn: Drawn,
    /// The quantity of the request that is being made, and how many serials were made.
    quantity: u64,
    serials: u64,
}

impl Maker {
    pub fn new(alloc: Global) -> Self {
        Maker {
            lots: Lots { state: 1 },
            drawn: Drawn::new(alloc),
            quantity: 1,
            serials: 0,
        }
    }

    /// Takes down what an accepted command drew.
    pub fn note(&mut self, command: &Command, answer: &Answer) -> Result<(), Fail> {
        self.drawn.add(command.verb(), answer.ids.as_slice())
    }

    /// Which command is made next.
    pub fn verb(&mut self) -> &'static str {
        let mut left = self.lots.below(often());
        for (verb, times) in OFTEN {
            if left < *times {
                return verb;
            }
            left = left.saturating_sub(*times);
        }
        "order"
    }

    fn number(&mut self, verb: &str, name: &str) -> u64 {
        if name == "quantity" {
            let most = if verb == "found" || verb == "add" || verb == "order_line" {
                12
            } else {
                3
            };
            self.quantity = self.lots.below(most).saturating_add(1);
            return self.quantity;
        }
        let (rows, from_start) = self.drawn.asked_by(verb, name);
        self.lots.one_of(rows, from_start)
    }

    fn text(&mut self, alloc: Global) -> Result<Text, Fail> {
        let number = self.lots.below(200);
        let text = format!(in alloc; "T{number}")?;
        Ok(Text::new(text).ok_or("it is a text")?)
    }

    fn serials(&mut self, alloc: Global) -> Result<Serials, Fail> {
        let mut serials = Vec::new(alloc);
        for _ in 0..self.quantity {
            self.serials = self.serials.saturating_add(1);
            let number = if self.lots.below(20) == 0 {
                1
            } else {
                self.serials
            };
            let text = format!(in alloc; "S{number}")?;
            serials.push(Serial::new(text).ok_or("it is a serial")?)?;
        }
        Ok(Serials::new(serials))
    }

    fn flags(&mut self) -> Result<Flags, Fail> {
        let number = if self.lots.below(10) == 0 {
            self.lots.below(128)
        } else {
            self.lots.below(60).saturating_add(4)
        };
        Ok(flags_of(number).ok_or("it is a number of flags")?)
    }

    fn status(&mut self) -> Result<Status, Fail> {
        let code = if self.lots.below(5) == 0 {
            self.lots.below(8)
        } else {
            self.lots.below(3)
        };
        Ok(Status::from_code(code).ok_or("it is a status")?)
    }

    fn items(&mut self, alloc: Global, verb: &str) -> Result<Ids, Fail> {
        let mut numbers = Vec::new(alloc);
        for _ in 0..self.lots.below(2).saturating_add(1) {
            numbers.push(self.number(verb, "item"))?;
        }
        Ok(Ids::new(numbers))
    }

    /// Whether a field that may be missing is.
    fn is_missing(&mut self) -> bool {
        self.lots.below(2) != 0
    }

    /// What stands in a field of a command.
    fn field(
        &mut self,
        alloc: Global,
        verb: &str,
        name: &str,
        kind: FieldKind,
    ) -> Result<Field, Fail> {
        Ok(match kind {
            FieldKind::Number | FieldKind::Row(_) => Field::Number(self.number(verb, name)),
            FieldKind::MaybeRow(_) => Field::MaybeNumber(if self.is_missing() {
                None
            } else {
                Some(self.number(verb, name))
            }),
            FieldKind::Text => Field::Text(self.text(alloc)?),
            FieldKind::MaybeText => Field::MaybeText(if self.is_missing() {
                None
            } else {
                Some(self.text(alloc)?)
            }),
            FieldKind::Yes => Field::Yes(self.lots.below(4) == 0),
            FieldKind::Flags => Field::Flags(self.flags()?),
            FieldKind::Status => Field::Status(self.status()?),
            FieldKind::Side => Field::Side(Side::from_code(self.lots.below(2)).ok_or("a side")?),
            FieldKind::Serials => Field::Serials(self.serials(alloc)?),
            FieldKind::MaybeSerials => Field::MaybeSerials(if self.is_missing() {
                None
            } else {
                Some(self.serials(alloc)?)
            }),
            FieldKind::Rows(_) => Field::Numbers(self.items(alloc, verb)?),
        })
    }

    /// A key, of one request in eight.
    fn key(&mut self, alloc: Global) -> Result<Option<Key>, Fail> {
        if self.lots.below(8) != 0 {
            return Ok(None);
        }
        let number = self.lots.below(400);
        Ok(Key::new(format!(in alloc; "k{number}")?))
    }

    /// A request of that command.
    pub fn request(&mut self, alloc: Global, verb: &str) -> Result<Request, Fail> {
        let form = Command::form(verb).ok_or("it is a command")?;
        let mut fields = Vec::new(alloc);
        for (name, kind) in form.fields {
            fields.push(self.field(alloc, verb, name, *kind)?)?;
        }
        let command = Command::from_fields(verb, fields).ok_or("it is a command")?;
        let key = self.key(alloc)?;
        let day = Day::parse("2030-01-02").ok_or("it is a day")?;
        Ok(Request { key, day, command })
    }
}
