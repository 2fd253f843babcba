//! Printing models.
use crate::print_constraint::print_cons;
use crate::print_expression::{print_binders, print_expr};
use crate::print_list::print_exprs;
use crate::print_token::{Output, print_name, print_number, put};
use sm_syntax::{
    Aim, Binders, Cons, Expr, Goal, Item, Kind, Level, Name, Picking, Relaxing, Splitting, Tag,
    Tree, Values,
};

fn tag_words(tag: &Tag) -> [&'static [u8]; 2] {
    match tag {
        Tag::Infer { level, .. } => match level {
            Level::None => [b"infer", b"none"],
            Level::Bounds => [b"infer", b"bounds"],
            Level::Full => [b"infer", b"full"],
        },
        Tag::Relax { relaxing, .. } => match relaxing {
            Relaxing::On => [b"relax", b"on"],
            Relaxing::None => [b"relax", b"none"],
        },
        Tag::Branch { .. } => [b"branch", b""],
        Tag::Pick { picking, .. } => match picking {
            Picking::First => [b"pick", b"first"],
            Picking::Small => [b"pick", b"small"],
            Picking::Point => [b"pick", b"point"],
        },
        Tag::Split { splitting, .. } => match splitting {
            Splitting::Half => [b"split", b"half"],
            Splitting::Least => [b"split", b"least"],
            Splitting::Most => [b"split", b"most"],
        },
        Tag::Sub { .. } => [b"sub", b""],
    }
}

fn print_tag(out: &mut Output, tag: &Tag) {
    for word in tag_words(tag) {
        if !word.is_empty() {
            put(out, word);
        }
    }
    match tag {
        Tag::Branch { rank, .. } => print_number(out, rank),
        Tag::Sub { number, .. } => print_expr(out, number),
        _ => {}
    }
}

fn print_range(out: &mut Output, word: &[u8], least: &Expr, greatest: &Expr) {
    put(out, word);
    print_expr(out, least);
    put(out, b"..");
    print_expr(out, greatest);
}

fn print_kind(out: &mut Output, kind: &Kind) {
    match kind {
        Kind::Set { values, .. } => match values {
            Values::Range { least, greatest } => print_range(out, b"set", least, greatest),
            Values::List { first, more } => {
                put(out, b"set");
                put(out, b"{");
                print_exprs(out, first, more.as_slice());
                put(out, b"}")
            }
        },
        Kind::Int {
            least,
            greatest,
            ..
        } => print_range(out, b"int", least, greatest),
        Kind::Real {
            least,
            greatest,
            ..
        } => print_range(out, b"real", least, greatest),
    }
}

fn print_family(out: &mut Output, sets: &[Name]) {
    let mut sign: &[u8] = b"[";
    for set in sets {
        put(out, sign);
        print_name(out, set);
        sign = b",";
    }
    if !sets.is_empty() {
        put(out, b"]");
    }
}

fn print_post(out: &mut Output, forall: &Option<Binders>, cons: &Cons, tags: &[Tag]) {
    put(out, b"post");
    if let Some(binders) = forall {
        put(out, b"forall");
        print_binders(out, binders);
        put(out, b":");
    }
    print_cons(out, cons);
    for tag in tags {
        print_tag(out, tag);
    }
}

fn print_item(out: &mut Output, item: &Item) {
    match item {
        Item::Index {
            name,
            least,
            greatest,
            ..
        } => {
            put(out, b"index");
            print_name(out, name);
            print_range(out, b"=", least, greatest);
        }
        Item::Var {
            name,
            sets,
            kind,
            ..
        } => {
            put(out, b"var");
            print_name(out, name);
            print_family(out, sets.as_slice());
            put(out, b":");
            print_kind(out, kind);
        }
        Item::Post {
            forall,
            cons,
            tags,
            ..
        } => print_post(out, forall, cons, tags.as_slice()),
    }
    put(out, b";")
}

fn print_aim(out: &mut Output, aim: &Aim) {
    match aim {
        Aim::Minimise { expr, .. } => {
            put(out, b"minimise");
            print_expr(out, expr);
        }
        Aim::Maximise { expr, .. } => {
            put(out, b"maximise");
            print_expr(out, expr);
        }
    }
}

fn print_goal(out: &mut Output, goal: &Goal) {
    match goal {
        Goal::Satisfy { .. } => put(out, b"satisfy"),
        Goal::Aims { first, more, .. } => {
            print_aim(out, first);
            for aim in more.as_slice() {
                put(out, b"then");
                print_aim(out, aim);
            }
        }
    }
}

/// The tokens of a tree, each behind a space.
pub fn print_tree(out: &mut Output, tree: &Tree) {
    for item in tree.items.as_slice() {
        print_item(out, item);
    }
    print_goal(out, &tree.goal);
    put(out, b";")
}
