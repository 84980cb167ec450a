//! Trees as texts, to compare them with.

use castor_alg::Op;
use castor_parse::{Decl, File, Item, PAgg, PBound, PCol, PExpr, PRel, ParseError, Word, parse};
use castor_val::{Ty, Value};
use std::alloc::Global;
use std::process::Abort;

/// Trees as texts, each node in parentheses behind its name.
#[derive(Drop)]
struct Shown {
    alloc: Global,
    text: String,
    /// Whether there was memory for all of the text.
    is_whole: bool,
}

impl Shown {
    fn put(&mut self, text: &str) {
        if self.text.push_str(text).is_err() {
            self.is_whole = false;
        }
    }

    fn word(&mut self, word: &Word) {
        self.put(word.text.as_str())
    }

    fn number(&mut self, number: i64) {
        match format!(in self.alloc; "{number}") {
            Ok(digits) => self.put(digits.as_str()),
            Err(_) => self.is_whole = false,
        }
    }

    fn op(&mut self, op: Op) {
        self.put(match op {
            Op::Or => "or",
            Op::And => "and",
            Op::Eq => "=",
            Op::Ne => "!=",
            Op::Lt => "<",
            Op::Le => "<=",
            Op::Gt => ">",
            Op::Ge => ">=",
            Op::Add => "+",
            Op::Sub => "-",
            Op::Mul => "*",
            Op::Div => "/",
            Op::Rem => "%",
        })
    }

    fn ty(&mut self, ty: Ty) {
        self.put(match ty {
            Ty::Int => "int",
            Ty::Bool => "bool",
            Ty::Text => "text",
        })
    }

    fn col(&mut self, col: &PCol) {
        match col {
            PCol::Name(name) => self.word(name),
            PCol::Dotted(of, name) => {
                self.word(of);
                self.put(".");
                self.word(name)
            }
            PCol::Number(number) => {
                self.put("#");
                self.number(i64::from(*number))
            }
        }
    }

    fn value(&mut self, value: &Value) {
        match value {
            Value::Int(number) => self.number(*number),
            Value::Bool(truth) => self.put(if *truth { "true" } else { "false" }),
            Value::Text(text) => {
                self.put("'");
                self.put(text.as_str());
                self.put("'")
            }
        }
    }

    fn expr(&mut self, expr: &PExpr) {
        match expr {
            PExpr::Col(col) => self.col(col),
            PExpr::ScopeAt(scope, number) => {
                self.word(scope);
                self.put(".");
                self.number(i64::from(*number))
            }
            PExpr::Param(name) => {
                self.put("$");
                self.word(name)
            }
            PExpr::Lit(_, value) => self.value(value),
            PExpr::Bin(op, left, right) => {
                self.put("(");
                self.expr(left.get());
                self.put(" ");
                self.op(*op);
                self.put(" ");
                self.expr(right.get());
                self.put(")")
            }
            PExpr::Not(operand) => {
                self.put("(not ");
                self.expr(operand.get());
                self.put(")")
            }
            PExpr::If(condition, yes, no) => {
                self.put("(if ");
                self.expr(condition.get());
                self.put(" ");
                self.expr(yes.get());
                self.put(" ");
                self.expr(no.get());
                self.put(")")
            }
        }
    }
}

impl Shown {
    fn alias(&mut self, name: &Option<Word>) {
        match name {
            Some(name) => {
                self.put(" as ");
                self.word(name)
            }
            None => {}
        }
    }

    fn items(&mut self, items: &[Item]) {
        for item in items {
            self.put("[");
            self.expr(&item.expr);
            self.alias(&item.name);
            self.put("]");
        }
    }

    fn exprs(&mut self, exprs: &[PExpr]) {
        for expr in exprs {
            self.put("[");
            self.expr(expr);
            self.put("]");
        }
    }

    fn cols(&mut self, cols: &[PCol]) {
        for col in cols {
            self.put("[");
            self.col(col);
            self.put("]");
        }
    }

    fn agg(&mut self, agg: &PAgg) {
        match agg {
            PAgg::Count => self.put("count"),
            PAgg::Sum(col) => {
                self.put("sum ");
                self.col(col)
            }
            PAgg::Min(col) => {
                self.put("min ");
                self.col(col)
            }
            PAgg::Max(col) => {
                self.put("max ");
                self.col(col)
            }
        }
    }

    fn aggs(&mut self, aggs: &[(PAgg, Option<Word>)]) {
        for agg in aggs {
            self.put("<");
            self.agg(&agg.0);
            self.alias(&agg.1);
            self.put(">");
        }
    }

    fn keys(&mut self, keys: &[(PCol, bool)]) {
        for key in keys {
            self.put("[");
            self.col(&key.0);
            self.put(if key.1 { " falls]" } else { "]" });
        }
    }

    fn bound(&mut self, bound: &PBound) {
        match bound {
            PBound::Any => self.put(" any"),
            PBound::Incl(expr) => {
                self.put(" incl ");
                self.expr(expr)
            }
            PBound::Excl(expr) => {
                self.put(" excl ");
                self.expr(expr)
            }
        }
    }

    #[cycle(shown)]
    fn rels(&mut self, rels: &[PRel]) {
        for rel in rels {
            self.put(" ");
            self.rel(rel);
        }
    }

    #[cycle(shown)]
    fn rel(&mut self, rel: &PRel) {
        match rel {
            PRel::Table(name) => return self.word(name),
            PRel::Scalar(item) => {
                self.put("(scalar ");
                self.expr(&item.expr);
                self.alias(&item.name);
            }
            PRel::Cross(operands) => {
                self.put("(cross");
                self.rels(operands.as_slice());
            }
            PRel::Concat(operands) => {
                self.put("(concat");
                self.rels(operands.as_slice());
            }
            PRel::Select(items, operand) => {
                self.put("(select ");
                self.items(items.as_slice());
                self.put(" ");
                self.rel(operand.get());
            }
            PRel::Filter(condition, operand) => {
                self.put("(filter ");
                self.expr(condition);
                self.put(" ");
                self.rel(operand.get());
            }
            PRel::Join(condition, left, right) => {
                self.put("(join ");
                self.expr(condition);
                self.put(" ");
                self.rel(left.get());
                self.put(" ");
                self.rel(right.get());
            }
            PRel::DepJoin(scope, source, body) => {
                self.put("(depjoin ");
                self.word(scope);
                self.put(" ");
                self.rel(source.get());
                self.put(" ");
                self.rel(body.get());
            }
            PRel::List(scope, source, body) => {
                self.put("(list ");
                self.word(scope);
                self.put(" ");
                self.rel(source.get());
                self.put(" ");
                self.rel(body.get());
            }
            PRel::Hash(scope, source, body, keys) => {
                self.put("(hash ");
                self.word(scope);
                self.put(" ");
                self.rel(source.get());
                self.put(" ");
                self.rel(body.get());
                self.put(" ");
                self.exprs(keys.as_slice());
            }
            PRel::Ord(scope, source, body, lower, upper) => {
                self.put("(ordered ");
                self.word(scope);
                self.put(" ");
                self.rel(source.get());
                self.put(" ");
                self.rel(body.get());
                self.bound(lower);
                self.bound(upper);
            }
            PRel::Group(keys, aggs, operand) => {
                self.put("(groupby ");
                self.cols(keys.as_slice());
                self.aggs(aggs.as_slice());
                self.put(" ");
                self.rel(operand.get());
            }
            PRel::Order(keys, operand) => {
                self.put("(orderby ");
                self.keys(keys.as_slice());
                self.put(" ");
                self.rel(operand.get());
            }
            PRel::Dedup(operand) => {
                self.put("(dedup ");
                self.rel(operand.get());
            }
        }
        self.put(")")
    }

    fn columns(&mut self, columns: &[(Word, Ty)]) {
        for column in columns {
            self.put(" ");
            self.word(&column.0);
            self.put(" ");
            self.ty(column.1);
        }
    }

    fn file(&mut self, file: &File) {
        for decl in file.decls.as_slice() {
            match decl {
                Decl::Table(name, columns) => {
                    self.put("table ");
                    self.word(name);
                    self.columns(columns.as_slice());
                }
                Decl::Param(name, ty) => {
                    self.put("param ");
                    self.word(name);
                    self.put(" ");
                    self.ty(*ty);
                }
            }
            self.put("; ");
        }
        self.rel(&file.query)
    }
}

fn text_of(alloc: Global, file: &File) -> Result<String, ParseError> {
    let mut shown = Shown {
        alloc,
        text: String::new(alloc),
        is_whole: true,
    };
    shown.file(file);
    let Shown { text, is_whole, .. } = shown;
    if is_whole {
        Ok(text)
    } else {
        Err(ParseError::Memory)
    }
}

/// The tree of a text.
pub fn tree_of(alloc: Global, text: &str) -> Result<String, ParseError> {
    match parse(alloc, text.as_bytes()) {
        Ok(file) => text_of(alloc, &file),
        Err(why) => Err(why),
    }
}

/// What a text is refused for.
pub fn refusal(alloc: Global, text: &[u8]) -> Option<ParseError> {
    match parse(alloc, text) {
        Ok(_) => None,
        Err(refusal) => Some(refusal),
    }
}
