use crate::plan::{Plan, filled};
use std::alloc::{AllocError, Global};

/// A text that stands for `$name` in all later blocks.
#[derive(Drop)]
struct Def {
    name: String,
    lines: String,
}

/// The names of a table's columns, and its rows.
#[derive(Drop)]
struct Table {
    names: String,
    rows: Vec<String>,
}

/// What the indented lines belong to.
#[derive(Clone, Copy)]
enum Part {
    Def,
    Body,
    Table,
}

/// The block that is read, and the definitions above it.
#[derive(Drop)]
pub(crate) struct Blocks {
    alloc: Global,
    defs: Vec<Def>,
    line: usize,
    title: String,
    body: String,
    tables: Vec<Table>,
    part: Part,
}

impl Blocks {
    pub fn new(alloc: Global) -> Blocks {
        Blocks {
            alloc,
            defs: Vec::new(alloc),
            line: 0,
            title: String::new(alloc),
            body: String::new(alloc),
            tables: Vec::new(alloc),
            part: Part::Body,
        }
    }

    /// The line of the block's title.
    pub fn line(&self) -> usize {
        self.line
    }

    /// Whether this line is the title of the next block, or a definition.
    pub fn is_ended_by(&self, line: &str) -> bool {
        line.starts_with("== ") || line.starts_with("let ")
    }

    /// Takes the next line of the file, whose number counts from 0.
    pub fn read(&mut self, at: usize, line: &str) -> Result<(), AllocError> {
        if let Some(title) = line.strip_prefix("== ") {
            self.part = Part::Body;
            self.line = at.saturating_add(1);
            self.title = String::from_str(self.alloc, title)?;
            Ok(())
        } else if let Some(name) = line.strip_prefix("let ") {
            self.begin_def(name)
        } else if let Some(names) = line.strip_prefix("each ") {
            self.begin_table(names)
        } else if line.starts_with('#') {
            Ok(())
        } else if line.starts_with("    ") || line.trim().is_empty() {
            self.read_inside(line)
        } else {
            self.part = Part::Body;
            self.push_body(line)
        }
    }

    fn begin_def(&mut self, name: &str) -> Result<(), AllocError> {
        self.part = Part::Def;
        let name = String::from_str(self.alloc, name.trim())?;
        let lines = String::new(self.alloc);
        self.defs.push(Def { name, lines })?;
        Ok(())
    }

    /// Lets a file's lines stand for a name.
    pub fn define(&mut self, name: &str, text: &str) -> Result<(), AllocError> {
        self.begin_def(name)?;
        for line in text.lines() {
            let line = format!(in self.alloc; "    {line}")?;
            self.read_inside(line.as_str())?;
        }
        Ok(())
    }

    fn begin_table(&mut self, names: &str) -> Result<(), AllocError> {
        self.part = Part::Table;
        let names = String::from_str(self.alloc, names)?;
        let rows = Vec::new(self.alloc);
        self.tables.push(Table { names, rows })?;
        Ok(())
    }

    fn read_inside(&mut self, line: &str) -> Result<(), AllocError> {
        match self.part {
            Part::Def => {
                if let Some(def) = self.defs.last_mut() {
                    def.lines.push_str(line)?;
                    def.lines.push_str("\n")?;
                }
                Ok(())
            }
            Part::Table => {
                if let Some(table) = self.tables.last_mut() {
                    if !line.trim().is_empty() {
                        table.rows.push(String::from_str(self.alloc, line.trim())?)?;
                    }
                }
                Ok(())
            }
            Part::Body => self.push_body(line),
        }
    }

    fn push_body(&mut self, line: &str) -> Result<(), AllocError> {
        self.body.push_str(line)?;
        self.body.push_str("\n")
    }

    /// The block's cases, one for each way to take a row of each of its tables. The next block begins.
    pub fn plans(&mut self) -> Result<Vec<Plan>, AllocError> {
        let body = std::mem::replace(&mut self.body, String::new(self.alloc));
        let title = std::mem::replace(&mut self.title, String::new(self.alloc));
        let tables = std::mem::replace(&mut self.tables, Vec::new(self.alloc));
        let mut plans = Vec::new(self.alloc);
        if body.as_str().trim().is_empty() {
            return Ok(plans);
        }
        let body = self.with_defs(body)?;
        plans.push(Plan { title, body })?;
        for table in &tables {
            plans = crossed(self.alloc, &plans, table)?;
        }
        Ok(plans)
    }

    fn with_defs(&self, body: String) -> Result<String, AllocError> {
        let mut body = body;
        for def in &self.defs {
            let value = def.lines.as_str().trim_end();
            let value = value.strip_prefix("    ").unwrap_or(value);
            body = filled(self.alloc, body.as_str(), def.name.as_str(), value)?;
        }
        Ok(body)
    }
}

/// Each plan with each row of the table.
fn crossed(alloc: Global, plans: &[Plan], table: &Table) -> Result<Vec<Plan>, AllocError> {
    let mut crossed = Vec::new(alloc);
    for plan in plans {
        for row in &table.rows {
            crossed.push(with_row(alloc, plan, table.names.as_str(), row.as_str())?)?;
        }
    }
    Ok(crossed)
}

fn with_row(alloc: Global, plan: &Plan, names: &str, row: &str) -> Result<Plan, AllocError> {
    let body = filled_by(alloc, plan, names, row)?;
    let title = format!(in alloc; "{} [{row}]", plan.title)?;
    Ok(Plan { title, body })
}

/// The body with the row's texts in place of the names of their columns.
fn filled_by(alloc: Global, plan: &Plan, names: &str, row: &str) -> Result<String, AllocError> {
    let mut body = plan.body.clone()?;
    let mut values = row.split("=>");
    for name in names.split("=>") {
        let value = values.next().unwrap_or("");
        body = filled(alloc, body.as_str(), name.trim(), value.trim())?;
    }
    Ok(body)
}
