//! What expressions and relations mean in which columns or a scope are replaced, which types these
//! have, and what of them is total or free.

ghost use Rattle.std.specs.Prelude.{ℕ, List};
ghost use Rattle.castor_alg.specs.declared.expr.Expr.{Expr};
ghost use Rattle.castor_alg.specs.declared.rel.Rel.{Rel};
ghost use Rattle.castor_laws.specs.Substitution.{ColumnsAreOfScope, ColumnsHaveValues};
ghost use Rattle.castor_laws.specs.Substitution.{ColumnsOfEachAreOfBound};
ghost use Rattle.castor_laws.specs.Substitution.{ScopeHasColumnFreeValues, ScopeHasValues};
ghost use Rattle.castor_laws.specs.SubstitutionParts.{ColumnsAreGone, ColumnsAreGoneToScope};
ghost use Rattle.castor_laws.specs.SubstitutionParts.{ColumnsOfScopeStayTotal, ColumnsStayTotal};
ghost use Rattle.castor_laws.specs.SubstitutionParts.{ColumnsReadKnown, ColumnsReadScope};
ghost use Rattle.castor_laws.specs.SubstitutionParts.{ScopeFreesKnown, ScopeStaysTotal};
ghost use Rattle.castor_laws.specs.SubstitutionTypes.{ColumnsHaveBoundTypes, ColumnsHaveScopeTypes};
ghost use Rattle.castor_laws.specs.SubstitutionTypes.{ColumnsHaveTypes};
ghost use Rattle.castor_laws.specs.SubstitutionTypes.{ColumnsOfEachHaveBoundTypes};
ghost use Rattle.castor_laws.specs.SubstitutionTypes.{ColumnsOfEachHaveTypes};
ghost use Rattle.castor_laws.specs.SubstitutionTypes.{ScopeHasColumnTypes, ScopeHasTypes};
ghost use Rattle.castor_laws.specs.SubstitutionTypes.{ScopeIsTyped};

/// An expression whose columns are replaced has the value of the expression over the row of the
/// values of those that replace them, wherever these don't fault.
pub fn replaced_columns_have_values()
    ensures { (by : List Expr) (e : Expr) → ColumnsHaveValues by e }
{}

/// An expression whose columns are replaced has the type of the expression over columns of the types
/// of those that replace them.
pub fn replaced_columns_have_types()
    ensures one { (by : List Expr) (e : Expr) → ColumnsHaveTypes by e }
    ensures several { (by es : List Expr) → ColumnsOfEachHaveTypes by es }
{}

/// An expression whose columns are replaced by total ones is total if and only if it was, reads no
/// scope that neither it nor one of them did, and has no columns where they have none.
pub fn replaced_columns_keep_parts()
    ensures total { (by : List Expr) (e : Expr) → ColumnsStayTotal by e }
    ensures reads { (by : List Expr) (e : Expr) → ColumnsReadKnown by e }
    ensures column_free { (by : List Expr) (e : Expr) → ColumnsAreGone by e }
{}

/// An expression whose columns are replaced by those of a scope has the value of the expression over
/// the scope's row.
pub fn columns_to_scope_read_its_row()
    ensures { (k : ℕ) (e : Expr) → ColumnsAreOfScope k e }
{}

/// Expressions that don't read a scope have, once their columns are replaced by those of the scope and
/// it is bound to a row, the values that they had over that row.
pub fn columns_to_scope_read_bound_row()
    ensures { (k : ℕ) (es : List Expr) → ColumnsOfEachAreOfBound k es }
{}

/// An expression whose columns are replaced by those of a scope has the type of the expression over
/// the scope's columns; where the scope is bound, one and several that didn't read it have the types
/// that they had over the columns that it is bound to.
pub fn columns_to_scope_have_its_types()
    ensures scope { (k : ℕ) (e : Expr) → ColumnsHaveScopeTypes k e }
    ensures bound { (k : ℕ) (e : Expr) → ColumnsHaveBoundTypes k e }
    ensures several { (k : ℕ) (es : List Expr) → ColumnsOfEachHaveBoundTypes k es }
{}

/// An expression whose columns are replaced by those of a scope is total if and only if it was, reads
/// no scope but that and those that it did, and has no columns.
pub fn columns_to_scope_keep_parts()
    ensures total { (k : ℕ) (e : Expr) → ColumnsOfScopeStayTotal k e }
    ensures reads { (k : ℕ) (e : Expr) → ColumnsReadScope k e }
    ensures column_free { (k : ℕ) (e : Expr) → ColumnsAreGoneToScope k e }
{}

/// A relation in which a scope is replaced means what the relation means where the scope has the
/// values of those that replace it, wherever these are the same over every row and no binder captures.
pub fn replaced_scope_has_values()
    ensures { (k : ℕ) (by : List Expr) (q : Rel) → ScopeHasValues k by q }
{}

/// A relation in which a scope is replaced by expressions without columns means what the relation
/// means where the scope has their values over the empty row, wherever no binder captures.
pub fn replaced_scope_has_column_free_values()
    ensures { (k : ℕ) (by : List Expr) (q : Rel) → ScopeHasColumnFreeValues k by q }
{}

/// A relation in which a scope is replaced has the column types that the relation has where the scope
/// has the types of those that replace it, and is well typed if that is, wherever no binder captures.
pub fn replaced_scope_has_types()
    ensures types { (k : ℕ) (by : List Expr) (q : Rel) → ScopeHasTypes k by q }
    ensures column_types { (k : ℕ) (by : List Expr) (q : Rel) → ScopeHasColumnTypes k by q }
    ensures typed { (k : ℕ) (by : List Expr) (q : Rel) → ScopeIsTyped k by q }
{}

/// A relation in which a scope is replaced by total expressions is total if and only if it was, and
/// free in it is no scope but those that were and aren't replaced, and those that the expressions read.
pub fn replaced_scope_keeps_parts()
    ensures total { (k : ℕ) (by : List Expr) (q : Rel) → ScopeStaysTotal k by q }
    ensures free { (k : ℕ) (by : List Expr) (q : Rel) → ScopeFreesKnown k by q }
{}
