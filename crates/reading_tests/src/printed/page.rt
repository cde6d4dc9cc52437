//! A script with classes, annotations, closures and strings with parts.

use super::printed;
use std::test::Fail;

/// Builds a page by calls that no class declares.
const SCRIPT: &str = r#"import groovy.transform.*

class Page {
  List lines = []
  int level = 0
  def methodMissing(String name, args) {
    def body = args ? args[-1] : null
    def attrs = args && args[0] instanceof Map ? args[0] : [:]
    def head = attrs.collect { k, v -> " $k='$v'" }.join('')
    if (body instanceof Closure) {
      lines << '  ' * level + "<$name$head>"
      level++
      body.delegate = this
      body.resolveStrategy = Closure.DELEGATE_FIRST
      body()
      level--
      lines << '  ' * level + "</$name>"
    } else {
      lines << '  ' * level + "<$name$head>$body</$name>"
    }
    this
  }
}
@ToString(includeNames = true) @EqualsAndHashCode @TupleConstructor
class Item { String name; int price }
class Cart {
  @Delegate Stock stock = new Stock()
  @Lazy List sorted = stock.items.sort { it.price }
}
class Stock {
  List items = []
  def add(String n, int p) { items << new Item(n, p); this }
  int total() { items.inject(0) { t, i -> t + i.price } }
}
def cart = new Cart()
cart.add('pen', 3).add('ink', 7)
cart.add 'cap', 2
def page = new Page()
page.html {
  h1 'Cart'
  ul(kind: 'list') {
    for (i in cart.sorted) { li(price: i.price, i.name) }
  }
  p "total ${cart.total()}"
}
println page.lines.join('\n')
println cart.items[0] == new Item('cap', 2)
println cart.sorted.last()
println((1..3).collect { it * cart.total() })
"#;

const PRINTED: &str = r#"import groovy.transform.*
class Page {
  List lines = []
  int level = 0
  def methodMissing(String name, args) {
    def body = args ? args[-1] : null
    def attrs = args && args[0] instanceof Map ? args[0] : [:]
    def head = attrs.collect({ k, v ->
      " ${k}='${v}'"
    }).join('')
    if (body instanceof Closure) {
      lines << '  ' * level + "<${name}${head}>"
      level++
      body.delegate = this
      body.resolveStrategy = Closure.DELEGATE_FIRST
      body()
      level--
      lines << '  ' * level + "</${name}>"
    }
    else {
      lines << '  ' * level + "<${name}${head}>${body}</${name}>"
    }
    this
  }
}
@ToString(includeNames = true)
@EqualsAndHashCode
@TupleConstructor
class Item {
  String name
  int price
}
class Cart {
  @Delegate
  Stock stock = new Stock()
  @Lazy
  List sorted = stock.items.sort({
    it.price
  })
}
class Stock {
  List items = []
  def add(String n, int p) {
    items << new Item(n, p)
    this
  }
  int total() {
    items.inject(0, { t, i ->
      t + i.price
    })
  }
}
def cart = new Cart()
cart.add('pen', 3).add('ink', 7)
cart.add('cap', 2)
def page = new Page()
page.html({
  h1('Cart')
  ul(kind: 'list', {
    for (i in cart.sorted) {
      li(price: i.price, i.name)
    }
  })
  p("total ${cart.total()}")
})
println(page.lines.join('\n'))
println(cart.items[0] == new Item('cap', 2))
println(cart.sorted.last())
println((1 .. 3).collect({
  it * cart.total()
}))
"#;

#[test]
fn page_builder(rt: HostRuntime) -> Result<(), Fail> {
    let text = printed(rt.alloc(), SCRIPT)?;
    assert_eq!(rt; text.as_str(), PRINTED);
    assert_eq!(rt; printed(rt.alloc(), PRINTED)?.as_str(), PRINTED);
    Ok(())
}
