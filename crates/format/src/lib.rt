// Theory without code: list records, the layout of a book, and what bytes are a book.
#![tactic(auto)]
