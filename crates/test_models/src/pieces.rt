//! The pieces of constraints and goals so far, until a constraint takes them.
use crate::words::{Read, Words};
use sm_flat::{Choice, Clause, Entry, Form, Item, LinRow, Literal, Packing, Task};
use sqlite_items::Items;
use std::alloc::Global;

/// What is in the lists goes into the next constraint or goal that has such a list.
#[derive(Drop)]
pub(crate) struct Pieces {
    alloc: Global,
    numbers: Vec<i64>,
    terms: Vec<(u32, i64)>,
    literals: Vec<Literal>,
    clauses: Vec<Clause>,
    listed: Vec<u32>,
    entries: Vec<Entry>,
    picks: Vec<(u32, Items<i64>)>,
    tasks: Vec<Task>,
    capacities: Vec<i64>,
    opening: Vec<i64>,
    items: Vec<Item>,
}

/// What is in the list, which is empty then.
fn taken<T>(alloc: Global, list: &mut Vec<T>) -> Items<T> {
    Items::from_vec(std::mem::replace(list, Vec::new(alloc)))
}

/// Adds what the words say that are left.
fn read_all<T: Read + Copy>(list: &mut Vec<T>, words: &mut Words<'_>) {
    for _ in 0..words.most() {
        if words.is_empty() {
            break;
        }
        let part = T::read(words);
        words.note(list.push(part).is_ok());
    }
}

/// What is in the list and what the words say that are left. The list is empty then.
fn take_all<T: Read + Copy>(alloc: Global, list: &mut Vec<T>, words: &mut Words<'_>) -> Items<T> {
    read_all(list, words);
    taken(alloc, list)
}

impl Pieces {
    pub(crate) fn new(alloc: Global) -> Pieces {
        Pieces {
            alloc,
            numbers: Vec::new(alloc),
            terms: Vec::new(alloc),
            literals: Vec::new(alloc),
            clauses: Vec::new(alloc),
            listed: Vec::new(alloc),
            entries: Vec::new(alloc),
            picks: Vec::new(alloc),
            tasks: Vec::new(alloc),
            capacities: Vec::new(alloc),
            opening: Vec::new(alloc),
            items: Vec::new(alloc),
        }
    }

    pub(crate) fn take_numbers(&mut self, words: &mut Words<'_>) -> Items<i64> {
        take_all(self.alloc, &mut self.numbers, words)
    }

    pub(crate) fn take_terms(&mut self, words: &mut Words<'_>) -> Items<(u32, i64)> {
        take_all(self.alloc, &mut self.terms, words)
    }

    fn take_row(&mut self, words: &mut Words<'_>) -> LinRow {
        LinRow {
            cmp: words.cmp(),
            bound: words.number(),
            terms: self.take_terms(words),
        }
    }

    fn take_choice(&mut self, words: &mut Words<'_>) -> Choice {
        Choice {
            z: words.var(),
            picks: taken(self.alloc, &mut self.picks),
        }
    }

    fn take_packing(&mut self, words: &mut Words<'_>) -> Packing {
        Packing {
            z: words.var(),
            capacities: taken(self.alloc, &mut self.capacities),
            opening: taken(self.alloc, &mut self.opening),
            items: taken(self.alloc, &mut self.items),
        }
    }

    /// The form of a kind, of the pieces so far and what the words say; none where the key is of no kind.
    pub(crate) fn take_form(&mut self, key: &str, words: &mut Words<'_>) -> Option<Form> {
        Some(match key {
            "row" => Form::Linear(self.take_row(words)),
            "logic" => Form::Logic(taken(self.alloc, &mut self.clauses)),
            "when" => Form::When {
                literals: taken(self.alloc, &mut self.literals),
                row: self.take_row(words),
            },
            "alldiff" => Form::Alldiff(take_all(self.alloc, &mut self.listed, words)),
            "element" => Form::Element {
                x: words.var(),
                z: words.var(),
                entries: take_all(self.alloc, &mut self.entries, words),
            },
            "indexsum" => Form::IndexSum(self.take_choice(words)),
            "cumulative" => Form::Cumulative {
                capacity: words.number(),
                tasks: taken(self.alloc, &mut self.tasks),
            },
            "disjunctive" => Form::Disjunctive(taken(self.alloc, &mut self.tasks)),
            "packing" => Form::Packing(self.take_packing(words)),
            "circuit" => Form::Circuit(take_all(self.alloc, &mut self.listed, words)),
            "assign" => Form::Assign(self.take_choice(words)),
            _ => return None,
        })
    }

    fn add_clause(&mut self, words: &mut Words<'_>) {
        let literals = take_all(self.alloc, &mut self.literals, words);
        words.note(self.clauses.push(Clause { literals }).is_ok());
    }

    /// Adds a task: its start, its duration, its demand, and its literal where it has one.
    fn add_task(&mut self, words: &mut Words<'_>) {
        let start = words.var();
        let duration = words.number();
        let demand = words.number();
        read_all(&mut self.literals, words);
        let task = Task {
            start,
            duration,
            demand,
            present: self.literals.pop(),
        };
        words.note(self.tasks.push(task).is_ok());
    }

    /// Adds a pick: its variable and its table.
    fn add_pick(&mut self, words: &mut Words<'_>) {
        let pick = (words.var(), self.take_numbers(words));
        words.note(self.picks.push(pick).is_ok());
    }

    /// Adds an item: its variable, its size and its costs.
    fn add_item(&mut self, words: &mut Words<'_>) {
        let item = Item {
            group: words.var(),
            size: words.number(),
            costs: self.take_numbers(words),
        };
        words.note(self.items.push(item).is_ok());
    }

    /// Adds a term for each of the first variables.
    fn add_terms(&mut self, words: &mut Words<'_>) {
        for var in 0..words.var() {
            words.note(self.terms.push((var, 1)).is_ok());
        }
    }

    /// Adds so many literals of variable 0.
    fn add_literals(&mut self, words: &mut Words<'_>) {
        for _ in 0..words.var() {
            words.note(self.literals.push(Literal::default()).is_ok());
        }
    }

    /// Adds a piece, and says whether the key is of one.
    pub(crate) fn add(&mut self, key: &str, words: &mut Words<'_>) -> bool {
        match key {
            "numbers" => read_all(&mut self.numbers, words),
            "terms" => self.add_terms(words),
            "if" => read_all(&mut self.literals, words),
            "literals" => self.add_literals(words),
            "clause" => self.add_clause(words),
            "listed" => read_all(&mut self.listed, words),
            "entries" => read_all(&mut self.entries, words),
            "task" => self.add_task(words),
            "pick" => self.add_pick(words),
            "capacities" => read_all(&mut self.capacities, words),
            "opening" => read_all(&mut self.opening, words),
            "item" => self.add_item(words),
            _ => return false,
        }
        true
    }
}
